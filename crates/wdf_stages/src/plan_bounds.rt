use crate::NetworkBounds;

/// The bounds of the words of a netlist's networks under a plan.
#[derive(Drop)]
pub enum PlanBounds {
    /// Those of a ladder's network.
    Ladder(NetworkBounds),
    /// Those of the networks of a lattice's branches.
    Lattice { a: NetworkBounds, b: NetworkBounds },
}
