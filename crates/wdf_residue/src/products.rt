//! The product of a square matrix with rows of a matrix, compared with the identity.

ghost use Rattle.std.specs.Prelude.{◌≡◌, ℕ, ◌%◌, ◌<◌, length, All, MatchOption};
ghost use Rattle.wdf_residue.specs.Residue.{prime, dot, AreResidues};
ghost use Rattle.wdf_residue.specs.Matrix.{IsSquare, IsLeftInverse, column_of, written_row, product_entry, identity_entry};
ghost use Rattle.wdf_residue.specs.Products.{IsFirstWrong, IsFirstWrongIn};

use crate::Matrix;
use crate::residues::{plus, times};
use crate::vectors::identity_entry;

/// An entry of a product that is not the identity's, by its row and its column, from 0.
#[derive(Clone, Copy, Debug, PartialEq, Eq)]
pub struct WrongEntry {
    /// Its row.
    pub row: usize,
    /// Its column.
    pub col: usize,
    /// What it is.
    pub got: u64,
}

// Row `i` of a square matrix of `n` columns.
fn written_row(entries: &[u64], n: usize, i: usize) -> &[u64]
    requires square { IsSquare n entries.now }
    requires row { i < n }
    ensures { result.now ≡ written_row n entries.now i }
{
    &entries[i * n..i * n + n]
}

// The product of a row of weights with a column of the rows of these numbers.
fn weighed(matrix: &Matrix, numbers: &[u32], weights: &[u64], col: usize) -> u64
    requires count { length weights.now ≡ length numbers.now }
    requires residues { AreResidues weights.now }
    requires rows { All (λ (r : ℕ). r < length matrix.now.rows) numbers.now }
    requires column { col < matrix.now.columns }
    ensures { result ≡ dot weights.now (column_of matrix.now.rows numbers.now col) % prime }
{
    let mut sum = 0;
    for (at, number) in numbers.iter().enumerate() {
        let entry = matrix.at(*number as usize, col);
        sum = plus(sum, times(weights[at], entry));
    }
    sum
}

// The first entry of a row of the product that is not the identity's.
fn wrong_in(matrix: &Matrix, numbers: &[u32], inverse: &[u64], row: usize) -> Option<WrongEntry>
    requires square { IsSquare (length numbers.now) inverse.now }
    requires count { length numbers.now ≡ matrix.now.columns }
    requires rows { All (λ (r : ℕ). r < length matrix.now.rows) numbers.now }
    requires row { row < length numbers.now }
    ensures { MatchOption result
        ((j : ℕ) → j < matrix.now.columns → product_entry matrix.now.rows numbers.now inverse.now row j ≡ identity_entry row j)
        (λ w. (w.row ≡ row) × IsFirstWrongIn matrix.now.rows matrix.now.columns numbers.now inverse.now row w.col w.got) }
{
    let weights = written_row(inverse, numbers.len(), row);
    for col in 0..matrix.cols() {
        let got = weighed(matrix, numbers, weights, col);
        if got != identity_entry(row, col) {
            return Some(WrongEntry { row, col, got });
        }
    }
    None
}

/// The first entry, row by row, of the product of `inverse` with the rows of these numbers that is
/// not the identity's; None where the product is the identity. `inverse` is a square matrix, written
/// row by row, with as many rows as are named.
pub fn first_wrong(matrix: &Matrix, numbers: &[u32], inverse: &[u64]) -> Option<WrongEntry>
    requires square { IsSquare (length numbers.now) inverse.now }
    requires count { length numbers.now ≡ matrix.now.columns }
    requires rows { All (λ (r : ℕ). r < length matrix.now.rows) numbers.now }
    ensures { MatchOption result
        (IsLeftInverse matrix.now.rows matrix.now.columns numbers.now inverse.now)
        (λ w. IsFirstWrong matrix.now.rows matrix.now.columns numbers.now inverse.now w.row w.col w.got) }
{
    for row in 0..numbers.len() {
        if let Some(wrong) = wrong_in(matrix, numbers, inverse, row) {
            return Some(wrong);
        }
    }
    None
}
