//! Plans of runs, and the bounds of the words that a network has in them.
#![tactic(auto)]

mod bound_fault;
mod bounds;
pub mod laws;
mod plan;
#[cfg(test)]
mod tests;

pub use bound_fault::BoundFault;
pub use bounds::{Bounds, plan_check};
pub use plan::Plan;
