//! The fast engine and the plain one side by side, in tests alone.
//!
//! Each is proved to make the waves of the reference step. The tests run both on the same noise, in
//! whole programs as they are built, and compare load waves and the waves at each element.
#![tactic(auto)]

#[cfg(test)]
mod tests;
