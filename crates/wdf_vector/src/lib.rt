//! Several whole numbers at once, as the lanes of a vector: sums, products, and quotients by a power of
//! two.
//!
//! A group of `N` numbers is an array, in which the number at each place belongs to one of as many runs.
//! Each function does at each place what its plain form does with one number.
//!
//! ```rust
//! let raw = sums(products(m, ups), products(n, waves));
//! let truncated = parts::<K, N>([0; N], raw);
//! ```
#![tactic(auto)]

mod vector;

pub use vector::{differences, parts, products, sums};
