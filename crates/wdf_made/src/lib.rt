//! A ladder and a wave that are made from the words of a seed.
//!
//! [`made_netlist`] gives the ladder of an order, [`made_head`] and [`made_data`] the wave of a number
//! of frames. The words are those of `Lcg64Xsh32::new(seed, 1)` of `rand_pcg`: first one for each
//! element of the ladder between its source and its load, then one for each sample. `specs/LadderText`,
//! `specs/Ladder` and `specs/Wave` say what is made of them.
#![tactic(auto)]

mod elements;
mod generator;
mod ladder;
pub mod laws;
mod names;
mod values;
mod wave;

pub use ladder::made_netlist;
pub use wave::{made_data, made_head};

/// The most reactances of a ladder that is made.
pub const MAX_ORDER: u8 = 32;

/// The most frames of a wave that is made.
pub const MAX_FRAMES: u32 = 4_194_304;
