use wdf_law::Kind;
use wdf_text::{Name, Quantity};

/// An element of a circuit, from one node to another.
#[derive(Clone, Copy, Debug, PartialEq, Eq)]
pub struct Element {
    /// Its name; in a lattice `@` for the source of a branch.
    pub name: Name,
    pub kind: Kind,
    /// The number of the node that it runs from.
    pub from: u32,
    /// The number of the node that it runs to.
    pub to: u32,
    /// Its value in ohms, farads or henries; that of a source is its series resistance.
    pub value: Quantity,
}
