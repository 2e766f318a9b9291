/// Which circuit of a netlist is meant.
#[derive(Clone, Copy, Debug, PartialEq, Eq)]
pub enum Side {
    /// The one circuit of a ladder.
    Whole,
    /// The first branch of a lattice.
    A,
    /// The second branch of a lattice.
    B,
}
