//! Exact positive fractions, on which the ratios of wave ports stand, and the two calls on whole
//! numbers that round up, on which the bounds of words stand.
//!
//! A [`Frac`] keeps its lowest terms, [`Frac::mul`] refuses no product that fits, and
//! [`Frac::scaled`] counts a fraction in units of 2^-40, rounded to the nearest whole number, half
//! up. [`isqrt_up`] and [`mul_div_up`] are exact over all of 128 bits. No call takes memory.
#![tactic(auto)]

mod divisor;
mod frac;
mod frac_error;
mod proportion;
mod root;
mod rounding;
mod scaled;
#[cfg(test)]
mod tests;

pub use divisor::gcd;
pub use frac::Frac;
pub use frac_error::FracError;
pub use proportion::mul_div_up;
pub use root::isqrt_up;
pub use scaled::Scaled;
