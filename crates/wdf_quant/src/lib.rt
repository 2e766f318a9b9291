//! Quantised networks, and the numbers that bound the words of their ports.
//!
//! `specs/RatioTrees` serves the crate's own contracts alone.
#![tactic(auto)]

pub mod laws;
mod multiplying;
mod port_ratio;
mod port_sum;
mod quantising;
mod ratio_fault;
mod ratio_tree;
mod ratio_trees;
mod ratios;
#[cfg(test)]
mod tests;
mod wide_port;

pub use multiplying::multiplier;
pub use port_ratio::PortRatio;
pub use quantising::quantise;
pub use ratio_fault::RatioFault;
pub use ratios::{Ratios, enclose};
