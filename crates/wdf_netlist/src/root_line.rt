use crate::mention::Mention;

/// Where a line puts the root of its circuit.
#[derive(Clone, Copy, Debug)]
pub enum RootLine {
    /// At the element of this name.
    At(Mention),
    /// Where the adaptors are least deep.
    Shallow,
}
