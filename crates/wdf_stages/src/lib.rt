//! The stages of a run from its words to its frames: a file, a netlist, its networks, the bounds of
//! their words, the head of the wave, and the line that tells why a run stopped.
//!
//! Each stage is one call with an error type of its own, which has that stage's causes and no others:
//! [`load_file`], [`load_netlist`], [`design_networks`], [`bound_words`], [`open_wave`]. [`note_line`]
//! tries to write a line. The module [`laws`] says that what is told leaves one answer.
//!
//! `specs/` has a file for each stage: what stands after it, and the cause of each refusal.
#![tactic(auto)]

mod bound_stop;
mod bounding;
mod design_stop;
mod designing;
mod file_stop;
mod files;
pub mod laws;
mod names;
mod netlist_stop;
mod netlists;
mod network_bounds;
mod noting;
mod open_stop;
mod opening;
mod plan_bounds;
#[cfg(test)]
mod tests;

pub use bound_stop::BoundStop;
pub use bounding::bound_words;
pub use design_stop::DesignStop;
pub use designing::design_networks;
pub use file_stop::FileStop;
pub use files::{MAX_FILE, load_file};
pub use names::element_name;
pub use netlist_stop::NetlistStop;
pub use netlists::load_netlist;
pub use network_bounds::NetworkBounds;
pub use noting::note_line;
pub use open_stop::OpenStop;
pub use opening::{open_wave, source_count};
pub use plan_bounds::PlanBounds;
