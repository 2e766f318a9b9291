//! A run on a ladder and a wave that are made for it, and its summary.
//!
//! [`soak`] makes a ladder of a given order and a wave of given frames from the numbers of a seed, runs
//! the wave through the ladder's network as the program runs any other, in memory, and gives the
//! summary of what came of it. `wdf_made` says what is made, and `specs/Summary` what is told. The law
//! [`laws::one_soak`] says that this is one text, or one refusal.
//!
//! ```rust
//! let summary = soak(alloc, 1, 5, 1000)?;
//! ```
#![tactic(auto)]

mod figures;
mod growing_sink;
pub mod laws;
mod running;
mod soak_stop;
mod soaking;
mod summarising;

pub use figures::{Figures, figures_in};
pub use soak_stop::SoakStop;
pub use soaking::soak;
pub use summarising::summary;
