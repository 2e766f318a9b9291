use wdf_law::Kind;
use wdf_text::{Name, Quantity};

/// An element as its line says it: between nodes that are named.
#[derive(Clone, Copy, Debug)]
pub struct Part {
    pub kind: Kind,
    pub name: Name,
    pub from: Name,
    pub to: Name,
    pub value: Quantity,
}
