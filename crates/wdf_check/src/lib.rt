//! Certificates that a network falls silent: where a network has one, no state of its words comes
//! back without input but rest.
//!
//! [`observe`] gives the observability matrix of a network modulo the prime P = 2^61 - 1. A [`Cert`]
//! names rows of it and the inverse of the matrix that they make, so that [`check`] has only to
//! multiply. `specs/` says what a residue step is, what certifies and what a return is.
#![tactic(auto)]

mod cert;
mod cert_fault;
mod checking;
mod kernel;
pub mod laws;
mod observing;
mod stepping;

pub use cert::Cert;
pub use cert_fault::CertFault;
pub use checking::{check, multipliers};
pub use kernel::Kernel;
pub use observing::observe;
pub use wdf_residue::Matrix;
