//! Words, names and numbers of text, as the netlist reader and the text writers need them.
//!
//! A [`Cursor`] cuts a text into lines and words and tells where each [`Word`] stands. A word is then
//! read as a [`Name`], as a [`decimal`] or as a [`whole`] number. The `push_` functions append lines
//! and decimal digits to a buffer. Which lines are comments, and what the words mean, is not said here.
#![tactic(auto)]

mod cursor;
mod decimal_error;
mod decimals;
mod line;
mod name;
mod numbers;
mod place;
mod quantity;
mod significant;
#[cfg(test)]
mod tests;
mod word;
mod writers;

pub use cursor::{Cursor, MAX_TEXT};
pub use decimal_error::DecimalError;
pub use decimals::decimal;
pub use line::{Line, MAX_LINE};
pub use name::Name;
pub use numbers::whole;
pub use quantity::Quantity;
pub use word::Word;
pub use writers::{push_i128, push_line, push_u128};
