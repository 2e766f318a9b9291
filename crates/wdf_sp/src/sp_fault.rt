ghost use Rattle.std.specs.Prelude.{◌≡◌};
ghost use Rattle.wdf_sp.specs.declared.sp_fault.SpFault.TheVariants.{NoMemory};

use crate::Edges;
use std::alloc::{AllocError, AllocFailed};

/// Why a circuit has no shape.
#[derive(Drop)]
pub enum SpFault {
    /// The reduction ends in these edges, which are not one edge between the source's ends, in the
    /// list's order. They are named by the first leaf of the first edge that hangs, one with an end
    /// that no other edge touches and that is no end of the source, or else of the first edge.
    Core { element: u32, core: Edges },
    /// No memory is left.
    NoMemory,
}

impl From<AllocError> for SpFault {
    ghost from_gives = { λ _ fault. fault ≡ NoMemory };

    fn from(_: AllocError) -> Self {
        SpFault::NoMemory
    }
}

impl<T: Drop> From<AllocFailed<T>> for SpFault {
    ghost from_gives = { λ _ fault. fault ≡ NoMemory };

    fn from(_: AllocFailed<T>) -> Self {
        SpFault::NoMemory
    }
}
