//! Networks of wave digital adaptors, and what they mean.
//!
//! A [`Net`] is a quantised network: two trees of series and parallel adaptors whose leaves are the
//! elements, joined at the root. `specs/` says what its waves are: Kirchhoff's laws at every
//! junction before each truncation (`Junction`), Ohm's law and the trapezoidal rule at every
//! element (`Elements`), and from these the reference step and the reference run (`Step`, `Run`).
#![tactic(auto)]

mod connection;
mod elements;
mod kind;
pub mod laws;
mod net;
mod net_error;
mod outlet;
mod port_tree;
mod role;
mod rules;
mod shape;
mod side;
#[cfg(test)]
mod tests;
mod tree;

pub use connection::Connection;
pub use kind::Kind;
pub use net::Net;
pub use net_error::NetError;
pub use outlet::Outlet;
pub use port_tree::PortTree;
pub use shape::Shape;
pub use side::Side;
pub use tree::Tree;

/// The most sources of a network.
pub const MAX_SOURCES: usize = 8;
