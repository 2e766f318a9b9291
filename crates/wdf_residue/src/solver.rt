//! Elimination, row after row.

ghost use Rattle.std.specs.Prelude.{◌≡◌, ◌++◌, ◌∷◌, [], ℕ, ◌<◌, length, map, IfOk, OnOk, MatchOption};
ghost use Rattle.wdf_residue.specs.Residue.{AreResidues};
ghost use Rattle.wdf_residue.specs.Matrix.{Entries, IsRow, identity_entry};
ghost use Rattle.wdf_residue.specs.Solving.{Reduction, IsReduction, Advances, SeesNone, IsFirstSeen, cleared, IsFirstOpen, AreSolved, column, identity_column, identity_columns, written};

use crate::Matrix;
use crate::residues::inverse;
use crate::vectors::{dot, identity_entry, less, scaled};
use std::alloc::{AllocError, Global};
use std::marker::Model;

// Where elimination stands. The columns of `unseen` span the vectors that no row so far sees: each is
// 1 at its own place and 0 behind it, or 0 everywhere. `solved` has a column for each row that was
// taken, by its number in `taken`. At every time the identity is `unseen` and the product of `solved`
// with the taken rows together. Both are kept by columns: a row of such a matrix is a column.
#[derive(Drop)]
pub(crate) struct Solver {
    unseen: Matrix,
    solved: Matrix,
    taken: Vec<u32>,
}

impl Model for Solver {
    ghost use Rattle.wdf_residue.specs.Solving.{Reduction, IsReduction};
    ghost use Rattle.std.specs.Prelude.{◌≡◌};

    ghost Value = { Reduction };

    ghost view = { λ s. record { columns = s.unseen.columns; unseen = s.unseen.rows; solved = s.solved.rows; taken = s.taken.items } };

    ghost invariant = { λ s. (s.solved.columns ≡ s.unseen.columns)
        × IsReduction (record { columns = s.unseen.columns; unseen = s.unseen.rows; solved = s.solved.rows; taken = s.taken.items }) };
}

// Column `c` of the identity.
fn identity_column(alloc: Global, n: usize, c: usize) -> Result<Vec<u64>, AllocError>
    ensures { IfOk result (λ v. v.items ≡ identity_column n c) }
{
    let mut column = Vec::with_capacity(alloc, n)?;
    for i in 0..n {
        column.push(identity_entry(c, i))?;
    }
    Ok(column)
}

// The identity, by columns.
fn identity(alloc: Global, n: usize) -> Result<Matrix, AllocError>
    ensures columns { IfOk result (λ m. m.columns ≡ n) }
    ensures rows { IfOk result (λ m. m.rows ≡ identity_columns n) }
{
    let mut columns = Matrix::new(alloc, n);
    for c in 0..n {
        columns.push(identity_column(alloc, n, c)?)?;
    }
    Ok(columns)
}

// The first column whose product with the row is not 0.
fn first_seen(columns: &Matrix, row: &[u64]) -> Option<usize>
    requires { IsRow columns.now.columns row.now }
    ensures { MatchOption result (SeesNone row.now columns.now.rows) (IsFirstSeen row.now columns.now.rows) }
{
    for c in 0..columns.rows() {
        if dot(row, columns.row(c)) > 0 {
            return Some(c);
        }
    }
    None
}

// A column less its product with the row times `g`.
fn cleared(alloc: Global, column: &[u64], row: &[u64], g: &[u64]) -> Result<Vec<u64>, AllocError>
    requires same { length row.now ≡ length column.now }
    requires pivot { length g.now ≡ length column.now }
    requires column { AreResidues column.now }
    requires row { AreResidues row.now }
    requires residues { AreResidues g.now }
    ensures { IfOk result (λ v. v.items ≡ cleared row.now g.now column.now) }
{
    less(alloc, column, dot(row, column), g)
}

// Every column less its product with the row times `g`.
fn all_cleared(
    alloc: Global,
    columns: &Matrix,
    row: &[u64],
    g: &[u64],
) -> Result<Matrix, AllocError>
    requires row { IsRow columns.now.columns row.now }
    requires pivot { IsRow columns.now.columns g.now }
    ensures columns { IfOk result (λ m. m.columns ≡ columns.now.columns) }
    ensures rows { IfOk result (λ m. m.rows ≡ map (cleared row.now g.now) columns.now.rows) }
{
    let mut all = Matrix::new(alloc, columns.cols());
    for c in 0..columns.rows() {
        all.push(cleared(alloc, columns.row(c), row, g)?)?;
    }
    Ok(all)
}

impl Solver {
    // Before the first row of `n` columns.
    pub(crate) fn new(alloc: Global, n: usize) -> Result<Solver, AllocError>
        ensures columns { IfOk result (λ s. s.columns ≡ n) }
        ensures unseen { IfOk result (λ s. s.unseen ≡ identity_columns n) }
        ensures solved { IfOk result (λ s. s.solved ≡ []) }
        ensures taken { IfOk result (λ s. s.taken ≡ []) }
    {
        let unseen = identity(alloc, n)?;
        unseen.rules();
        Ok(Solver {
            unseen,
            solved: Matrix::new(alloc, n),
            taken: Vec::new(alloc),
        })
    }

    // One row further: it is taken where it sees a column.
    pub(crate) fn advanced(
        self,
        alloc: Global,
        row: &[u64],
        number: u32,
    ) -> Result<Solver, AllocError>
        requires { IsRow self.columns row.now }
        ensures { IfOk result (Advances row.now number self) }
    {
        if self.taken.len() == self.unseen.cols() {
            return Ok(self);
        }
        match first_seen(&self.unseen, row) {
            Some(pivot) => self.taking(alloc, row, number, pivot),
            None => Ok(self),
        }
    }

    // Takes the row, `pivot` being the first column that it sees.
    fn taking(
        self,
        alloc: Global,
        row: &[u64],
        number: u32,
        pivot: usize,
    ) -> Result<Solver, AllocError>
        requires row { IsRow self.columns row.now }
        requires first { IsFirstSeen row.now self.unseen pivot }
        ensures { IfOk result (Advances row.now number self) }
    {
        let Solver {
            unseen,
            solved,
            taken,
        } = self;
        let column = unseen.row(pivot);
        let g = scaled(alloc, column, inverse(dot(row, column)))?;
        let unseen = all_cleared(alloc, &unseen, row, &g)?;
        let mut solved = all_cleared(alloc, &solved, row, &g)?;
        let mut taken = taken;
        solved.push(g)?;
        taken.push(number)?;
        unseen.rules();
        solved.rules();
        Ok(Solver {
            unseen,
            solved,
            taken,
        })
    }

    // The first column that is not 0.
    pub(crate) fn first_open(&self) -> Option<usize>
        ensures { MatchOption result (AreSolved self.now.unseen) (IsFirstOpen self.now.unseen) }
    {
        for c in 0..self.unseen.rows() {
            if self.unseen.at(c, c) > 0 {
                return Some(c);
            }
        }
        None
    }

    // A copy of a column that no row sees.
    pub(crate) fn unseen_column(&self, alloc: Global, c: usize) -> Result<Vec<u64>, AllocError>
        requires { c < length self.now.unseen }
        ensures { IfOk result (λ v. v.items ≡ column self.now.unseen c) }
    {
        self.unseen.row(c).to_vec(alloc)
    }

    // The solved columns' matrix, row by row.
    pub(crate) fn written(&self, alloc: Global) -> Result<Vec<u64>, AllocError>
        ensures { IfOk result (λ v. v.items ≡ written self.now.solved self.now.columns) }
    {
        let mut entries = Vec::new(alloc);
        for i in 0..self.solved.cols() {
            entries.extend_from_slice(&self.solved.column(alloc, i)?)?;
        }
        Ok(entries)
    }

    // What every solver keeps.
    pub(crate) fn rules(&self)
        ensures { IsReduction self.now }
    {
        let _ = &self.taken;
    }

    // The numbers of the taken rows.
    pub(crate) fn into_taken(self) -> Vec<u32>
        ensures { result.items ≡ self.taken }
    {
        let Solver {
            unseen,
            solved,
            taken,
        } = self;
        taken
    }
}
