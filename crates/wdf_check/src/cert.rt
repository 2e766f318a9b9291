ghost use Rattle.std.specs.Prelude.{◌≡◌, ◌↔◌, length, IfSome, IsSome, IsTrue};
ghost use Rattle.wdf_residue.specs.Matrix.{IsSquare};

use std::marker::Model;
use wdf_residue::PRIME;

/// A certificate: a network by the width and the values of its multipliers, the numbers of rows of
/// its observability matrix, and the inverse of the matrix that these rows make.
///
/// It keeps that the inverse has as many entries as the square of the number of rows, one row behind
/// the other, each a residue. Contracts see k and three lists.
#[derive(Drop)]
pub struct Cert {
    k: u8,
    multipliers: Vec<u32>,
    rows: Vec<u32>,
    inverse: Vec<u64>,
}

impl Model for Cert {
    ghost use Rattle.wdf_check.specs.Certificate.{Certificate, HasSquareInverse};

    ghost Value = { Certificate };

    ghost view = { λ c. record { k = c.k; multipliers = c.multipliers.items; rows = c.rows.items; inverse = c.inverse.items } };

    ghost invariant = { λ c. HasSquareInverse (record { k = c.k; multipliers = c.multipliers.items; rows = c.rows.items; inverse = c.inverse.items }) };
}

// Whether there are as many residues as the square of `rows`.
fn is_square(rows: usize, entries: &[u64]) -> bool
    ensures { IsTrue result ↔ IsSquare rows entries.now }
{
    rows.checked_mul(rows) == Some(entries.len()) && entries.iter().all(|entry| *entry < PRIME)
}

impl Cert {
    ghost use Rattle.wdf_check.specs.Certificate.{Certificate, HasSquareInverse};

    /// A certificate of these parts; None exactly where the inverse is no square matrix of residues
    /// with as many rows as are named.
    pub fn new(k: u8, multipliers: Vec<u32>, rows: Vec<u32>, inverse: Vec<u64>) -> Option<Cert>
        ensures some { IsSome result ↔ IsSquare (length rows.items) inverse.items }
        ensures parts { IfSome result (λ c. c ≡ record { k = k; multipliers = multipliers.items; rows = rows.items; inverse = inverse.items }) }
    {
        if !is_square(rows.len(), &inverse) {
            return None;
        }
        Some(Cert {
            k,
            multipliers,
            rows,
            inverse,
        })
    }

    /// The width of the network's multipliers, in bits.
    pub fn k(&self) -> u8
        ensures { result ≡ self.now.k }
    {
        self.k
    }

    /// The network's multipliers, in units of `2^-k`, in the order of `Net::multiplier_at`.
    pub fn multipliers(&self) -> &[u32]
        ensures { result.now ≡ self.now.multipliers }
    {
        &self.multipliers
    }

    /// The numbers of the rows, counted from 0.
    pub fn rows(&self) -> &[u32]
        ensures { result.now ≡ self.now.rows }
    {
        &self.rows
    }

    /// The inverse, row by row: as many residues as the square of the number of rows.
    pub fn inverse(&self) -> &[u64]
        ensures value { result.now ≡ self.now.inverse }
        ensures square { HasSquareInverse self.now }
    {
        &self.inverse
    }
}
