//! The stages of certificates: those of a netlist's networks made and written, those of a file
//! loaded, and those of a file checked against the networks.
//!
//! Each stage is one call with an error type of its own, which has that stage's causes and no others:
//! [`certify`], [`load_certs`], [`check_certs`]. The module [`laws`] says that what is told leaves one
//! answer. `specs/` has a file for each stage: what stands after it, and the cause of each refusal.
#![tactic(auto)]

mod certify_stop;
mod certifying;
mod check_stop;
mod checking;
pub mod laws;
mod load_stop;
mod loading;
#[cfg(test)]
mod tests;

pub use certify_stop::CertifyStop;
pub use certifying::certify;
pub use check_stop::CheckStop;
pub use checking::check_certs;
pub use load_stop::LoadStop;
pub use loading::load_certs;
