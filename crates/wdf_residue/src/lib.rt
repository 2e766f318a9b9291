//! Arithmetic modulo the prime P = 2^61 - 1: residues, matrices of residues, and elimination.
//!
//! A residue is a `u64` below [`PRIME`]. [`eliminate`] takes a [`Matrix`] and answers with the first
//! of its rows that are independent and their inverse, or with the first of its columns that depends
//! on those before it and how.
#![tactic(auto)]

mod elimination;
pub mod laws;
mod matrix;
mod products;
mod residues;
mod solver;
mod vectors;

pub use elimination::{Elimination, eliminate};
pub use matrix::Matrix;
pub use products::{WrongEntry, first_wrong};
pub use residues::{PRIME, inverse, minus, plus, times};
pub use vectors::dot;
