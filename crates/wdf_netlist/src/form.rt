use crate::Circuit;

/// The circuits of a netlist.
#[derive(Drop)]
pub enum Form {
    /// One circuit with a load.
    Ladder(Circuit),
    /// The two branches of a lattice.
    Lattice { a: Circuit, b: Circuit },
}
