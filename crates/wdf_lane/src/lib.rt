//! Samples by lanes: four at a time in one vector of [`std::simd`], and what is left of a slice one by
//! one.
//!
//! [`decode16`] reads samples of 16 bits, and [`limit_block`] makes the output samples of load waves and
//! counts those that are limited. They give what [`wdf_wav::sample_of`] and [`wdf_loop::out_sample`]
//! give for each sample, for slices of every length.
//!
//! ```rust
//! decode16(&bytes, &mut samples);
//! let limited = limit_block(&waves, down, 16, &mut outputs);
//! ```
//!
//! No call of this crate takes memory.
#![tactic(auto)]

mod decode;
mod lanes;
mod limit;
#[cfg(test)]
mod tests;

pub use decode::decode16;
pub use limit::limit_block;
