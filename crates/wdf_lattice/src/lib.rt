//! The networks of a netlist, and their runs over whole frames of samples.
//!
//! [`Networks`] holds the quantised network of a ladder or those of a lattice's two branches.
//! `specs/Waves.antt` says which load waves samples give: each channel is a run of its own from
//! rest, a network of several sources is driven in one run, and a lattice gives the difference of
//! its two branches.
#![tactic(auto)]

mod branches;
mod engines;
pub mod laws;
mod networks;
mod runner;
mod side_runs;

pub use networks::Networks;
pub use runner::Runner;
