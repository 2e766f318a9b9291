use crate::NetKind;
use wdf_text::Name;

/// What is wrong with a netlist's text, and where.
#[derive(Clone, Copy, Debug, PartialEq, Eq)]
pub struct NetFault {
    pub kind: NetKind,
    /// The line of the word at fault, from 1; 0 where something is absent from the whole text.
    pub line: u32,
    /// The byte of that line at which the word begins, from 1, or just behind the line's last word
    /// where a word is missing; 0 where the line is 0.
    pub column: u32,
    /// The name of the element, load or root, where that word was read and is a name.
    pub name: Option<Name>,
}
