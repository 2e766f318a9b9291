ghost use Rattle.std.specs.Prelude.{◌≡◌};
ghost use Rattle.wdf_design.specs.declared.design_fault.DesignFault.TheVariants.{NoMemory};

use std::alloc::{AllocError, AllocFailed};
use wdf_law::Side;
use wdf_sp::Edges;

/// Why a netlist has no networks.
#[derive(Drop)]
pub enum DesignFault {
    /// The circuit of this side has no shape: its reduction ends in these edges, the core, which are
    /// not one edge between the source's ends. `element` names it as in
    /// [`SpFault`](wdf_sp::SpFault).
    Core {
        side: Side,
        element: u32,
        core: Edges,
    },
    /// The ratio of a port of this side's circuit is not in `1..=2^62`: below where `low` is set,
    /// else above. `element` is the port's own element, or the first leaf of its junction.
    Range {
        side: Side,
        element: u32,
        low: bool,
    },
    /// No memory is left.
    NoMemory,
}

impl From<AllocError> for DesignFault {
    ghost from_gives = { λ _ fault. fault ≡ NoMemory };

    fn from(_: AllocError) -> Self {
        DesignFault::NoMemory
    }
}
