//! The fast engine, and the output rule.
//!
//! An [`Engine`] carries out the operations of a schedule for 1 to 8 runs, frame after frame: no wave of
//! a frame looks for its slot, and yet each slot can be asked for. [`out_sample`] makes a load wave an
//! output sample: the wave in units of the output, as the nearest value that a sample holds, and whether
//! that limited it.
#![tactic(auto)]

mod advance;
mod any_row;
mod ascent;
mod block;
mod cell;
mod chain;
mod chains;
mod descent;
mod ends;
mod engine;
#[cfg(test)]
mod engine_tests;
mod feed;
mod feeding;
mod feeds;
mod field;
mod frame;
mod group;
mod groups;
mod lane_cells;
mod lanes;
mod layout;
mod leaf;
mod limited;
mod mark;
mod notes;
mod outlet;
mod outputs;
mod pair_passes;
mod pairs;
mod part;
mod parts;
mod passes;
mod pieces;
mod place;
mod rest;
mod row;
mod run_group;
mod runs;
mod samples;
mod setting;
mod share;
mod stage;
mod stage_row;
mod step;
mod sums;
#[cfg(test)]
mod tests;
mod watch;
mod width;

pub use engine::Engine;
pub use limited::{Limited, out_sample};
