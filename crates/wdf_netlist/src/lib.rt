//! Circuits and netlists, and their text.
//!
//! A [`Circuit`] is a list of [`Element`]s between numbered nodes, with its outlet and its choice of
//! root; a [`Netlist`] is a rate with one circuit (a ladder) or two (a lattice's branches). Their
//! types keep their rules: `specs/Circuits.antt` and `specs/Netlists.antt` say which.
//!
//! [`read`] gives the netlist that a text stands for, or what is wrong with it and where.
//! `specs/NetlistText.antt` says what that is, and `docs/netlist.md` says it for people. [`print`]
//! writes a netlist as its canonical text, which `specs/Canonical.antt` spells.
#![tactic(auto)]

mod circuit;
mod circuit_draft;
mod draft;
mod element;
mod form;
mod forms;
mod keyword;
pub mod laws;
mod line_reader;
mod lines;
mod mention;
mod names;
mod net_fault;
mod net_kind;
mod netlist;
mod numbering;
mod part;
mod printing;
mod read_error;
mod reading;
mod root_choice;
mod root_line;
mod sayings;
#[cfg(test)]
mod tests;
mod text_lines;
mod values;

pub use circuit::Circuit;
pub use element::Element;
pub use form::Form;
pub use net_fault::NetFault;
pub use net_kind::NetKind;
pub use netlist::Netlist;
pub use printing::print;
pub use read_error::ReadError;
pub use reading::read;
pub use root_choice::RootChoice;

/// The most elements of a circuit.
pub const MAX_ELEMENTS: usize = 128;

/// The most reactances, capacitors and inductors together, of a circuit.
pub const MAX_REACTANCES: usize = 64;

/// The highest rate of a netlist, in frames per second.
pub const MAX_RATE: u32 = 1_000_000;
