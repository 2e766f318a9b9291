//! Vectors of residues.

ghost use Rattle.std.specs.Prelude.{◌≡◌, ◌%◌, ◌<◌, length, IfOk};
ghost use Rattle.wdf_residue.specs.Residue.{prime, dot, AreResidues};
ghost use Rattle.wdf_residue.specs.Matrix.{identity_entry};
ghost use Rattle.wdf_residue.specs.Vectors.{scaled_by, less};

use crate::residues::{minus, plus, times};
use std::alloc::{AllocError, Global};

/// The sum of the products of the entries, modulo P.
#[tactic(auto, using(crate::proofs::VectorLemmas::stepping))]
pub fn dot(xs: &[u64], ys: &[u64]) -> u64
    requires same { length xs.now ≡ length ys.now }
    requires first { AreResidues xs.now }
    requires second { AreResidues ys.now }
    ensures value { result ≡ dot xs.now ys.now % prime }
    ensures residue { result < prime }
{
    let mut sum = 0;
    for (at, x) in xs.iter().enumerate() {
        sum = plus(sum, times(*x, ys[at]));
    }
    sum
}

// An entry of the identity.
pub(crate) fn identity_entry(i: usize, j: usize) -> u64
    ensures { result ≡ identity_entry i j }
{
    if i == j { 1 } else { 0 }
}

// Each entry times a residue, modulo P.
pub(crate) fn scaled(alloc: Global, xs: &[u64], by: u64) -> Result<Vec<u64>, AllocError>
    requires residues { AreResidues xs.now }
    requires residue { by < prime }
    ensures { IfOk result (λ v. v.items ≡ scaled_by by xs.now) }
{
    let mut products = Vec::with_capacity(alloc, xs.len())?;
    for x in xs {
        products.push(times(*x, by))?;
    }
    Ok(products)
}

// A vector less a multiple of another, modulo P.
#[tactic(auto, using(crate::proofs::VectorLemmas::stepping))]
pub(crate) fn less(alloc: Global, xs: &[u64], by: u64, ys: &[u64]) -> Result<Vec<u64>, AllocError>
    requires same { length xs.now ≡ length ys.now }
    requires first { AreResidues xs.now }
    requires residue { by < prime }
    requires second { AreResidues ys.now }
    ensures { IfOk result (λ v. v.items ≡ less by xs.now ys.now) }
{
    let mut rest = Vec::with_capacity(alloc, xs.len())?;
    for (at, x) in xs.iter().enumerate() {
        rest.push(minus(*x, times(by, ys[at])))?;
    }
    Ok(rest)
}
