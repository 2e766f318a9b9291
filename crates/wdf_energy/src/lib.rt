//! The ledger: where the energy of a run went, in exact sums. It notes single frames, and blocks of
//! a channel's frames.
#![tactic(auto)]

mod account;
mod group;
pub mod laws;
mod ledger;
mod port;
#[cfg(test)]
mod tests;
mod totals;

pub use ledger::Ledger;
pub use totals::Totals;
