//! Certificates made, and their text.
//!
//! [`make`] gives the certificate of a network, or the state that stands in the way of one. [`write`]
//! and [`read`] are the text of certificates both ways. `specs/` has the format of the text.
#![tactic(auto)]

mod cert_text_fault;
mod certs;
pub mod laws;
mod make_fault;
mod making;
mod reading;
#[cfg(test)]
mod tests;
mod tokens;
mod writing;

pub use cert_text_fault::CertTextFault;
pub use certs::Certs;
pub use make_fault::MakeFault;
pub use making::make;
pub use reading::read;
pub use writing::write;
