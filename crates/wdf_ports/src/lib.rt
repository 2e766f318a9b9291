//! The wave ports of a circuit: the port resistance of each element, and the tree of ports of a
//! shape.
//!
//! A resistance is counted by its ratio to that of source 0, in units of 2^-40: `specs/PortRatio`
//! says the ratio of an element, `specs/PortRatios` that of each port of a shape.
#![tactic(auto)]

mod element_ratio;
pub mod laws;
mod port_fault;
mod porting;

pub use element_ratio::leaf_ratio;
pub use port_fault::PortFault;
pub use porting::port_tree;

#[cfg(test)]
mod tests;
