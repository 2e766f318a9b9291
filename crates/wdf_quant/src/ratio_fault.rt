ghost use Rattle.std.specs.Prelude.{◌≡◌};
ghost use Rattle.wdf_quant.specs.declared.ratio_fault.RatioFault.TheVariants.{NoMemory, Wide};

use crate::wide_port::WidePort;
use std::alloc::{AllocError, AllocFailed};

/// Why the ports of a network have no numbers.
#[derive(Clone, Copy, Debug, PartialEq, Eq)]
pub enum RatioFault {
    /// A number exceeds 2^62: that of the port of `element`, or of the junction whose first leaf it
    /// is, would be `need`, in units of 2^-40.
    Wide { element: u32, need: u128 },
    /// There was no memory for the numbers.
    NoMemory,
}

impl From<WidePort> for RatioFault {
    ghost from_gives = { λ w e. e ≡ Wide w.element w.need };

    fn from(port: WidePort) -> Self {
        RatioFault::Wide {
            element: port.element,
            need: port.need,
        }
    }
}

impl From<AllocError> for RatioFault {
    ghost from_gives = { λ _ e. e ≡ NoMemory };

    fn from(_: AllocError) -> Self {
        RatioFault::NoMemory
    }
}

impl<T: Drop> From<AllocFailed<T>> for RatioFault {
    ghost from_gives = { λ _ e. e ≡ NoMemory };

    fn from(_: AllocFailed<T>) -> Self {
        RatioFault::NoMemory
    }
}
