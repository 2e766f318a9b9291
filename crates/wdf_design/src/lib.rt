//! The quantised networks of a netlist.
//!
//! `specs/Designs` says which they are, and when there are none: the shape of each circuit, its two
//! trees at the root, the ratios of their ports, and the multipliers of these.
#![tactic(auto)]

mod design_fault;
mod designing;
pub mod laws;

pub use design_fault::DesignFault;
pub use designing::design;
