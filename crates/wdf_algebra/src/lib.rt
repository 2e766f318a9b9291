//! Whole numbers for wave digital filters: quotients by a power of two, towards zero and both ways,
//! and what junctions send to their parts by them; and in `specs/` and `proofs/` truncation,
//! squares and polynomial identities, on which the crates above rest their laws, and the range of
//! a sample.
#![tactic(auto)]

mod mask;
mod parts;
mod rounding;
mod words;

pub use mask::quotient_by_mask;
pub use parts::{parallel_part, root_part, series_first, series_second};
pub use rounding::Rounded;
pub use words::{quotient, times};
