use wdf_law::Connection;

/// Which two edges of a list are merged next, and how. Places count from 0.
#[derive(Clone, Copy, Debug, PartialEq, Eq)]
pub struct Merge {
    /// How the two edges are connected.
    pub connection: Connection,
    /// The place of the first edge, which the merged edge takes.
    pub first: usize,
    /// The place of the second edge, which is taken out; it is above the first.
    pub second: usize,
}
