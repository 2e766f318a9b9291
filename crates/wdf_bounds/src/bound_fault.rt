ghost use Rattle.std.specs.Prelude.{◌≡◌};
ghost use Rattle.wdf_bounds.specs.declared.bound_fault.BoundFault.TheVariants.{NoMemory};

use std::alloc::{AllocError, AllocFailed};

/// Why a plan was not found to fit a network.
#[derive(Clone, Copy, Debug, PartialEq, Eq)]
pub enum BoundFault {
    /// A word may be wider than a word can be: the bound of the port of `element`, or of the junction
    /// whose first leaf it is, would be `need`, above `limit`, which is `2^(60-k)`.
    Word {
        element: u32,
        need: u128,
        limit: u64,
    },
    /// There was no memory for the bounds.
    NoMemory,
}

impl From<AllocError> for BoundFault {
    ghost from_gives = { λ _ e. e ≡ NoMemory };

    fn from(_: AllocError) -> Self {
        BoundFault::NoMemory
    }
}

impl<T: Drop> From<AllocFailed<T>> for BoundFault {
    ghost from_gives = { λ _ e. e ≡ NoMemory };

    fn from(_: AllocFailed<T>) -> Self {
        BoundFault::NoMemory
    }
}
