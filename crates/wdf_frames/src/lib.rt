//! The frames of a wave, read, run and written in blocks.
//!
//! A [`WaveRun`] is made of a netlist's networks, a plan and the head of a wave, and holds all the
//! memory that its run takes. [`WaveRun::write`] reads the frames behind the head, drives the networks
//! with them, and writes the wave of the output samples, one channel for each run. Where it stops
//! before the last frame, [`FrameStop`] says why, and the output holds the header and just what was
//! made of the frames before. After a run [`WaveRun::limited`] tells how many output samples were
//! limited, and [`WaveRun::totals`] where the energy of each run went. The module [`laws`] says that
//! what is read leaves one end, and frames have one result.
//!
//! ```rust
//! let head = read_head(&mut input)?;
//! let mut run = WaveRun::new(alloc, networks, &plan, &head)?;
//! run.write(&mut input, &mut out)?;
//! let limited = run.limited();
//! let totals = run.totals(Side::Whole, 0);
//! ```
//!
//! `specs/Written.antt` says which bytes are the wave of which frames, `specs/WaveRuns.antt` and
//! `specs/Stops.antt` what stands after a run and where it stopped, and `specs/RunFacts.antt` what is
//! told of its frames.
#![tactic(auto)]

mod block;
mod frame_stop;
mod frames;
pub mod laws;
mod over;
mod round;
mod samples;
#[cfg(test)]
mod tests;
mod wave_run;

pub use frame_stop::FrameStop;
pub use wave_run::WaveRun;
