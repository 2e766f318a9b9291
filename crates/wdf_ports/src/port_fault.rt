ghost use Rattle.std.specs.Prelude.{◌≡◌};
ghost use Rattle.wdf_ports.specs.declared.port_fault.PortFault.TheVariants.{NoMemory};

use std::alloc::{AllocError, AllocFailed};

/// Why a circuit has no port ratios.
#[derive(Clone, Copy, Debug, PartialEq, Eq)]
pub enum PortFault {
    /// The ratio of a port is not in `1..=2^62`: below where `low` is set, else above. `element` is
    /// the port's own element, or the first leaf of its junction.
    Range { element: u32, low: bool },
    /// No memory is left.
    NoMemory,
}

impl From<AllocError> for PortFault {
    ghost from_gives = { λ _ fault. fault ≡ NoMemory };

    fn from(_: AllocError) -> Self {
        PortFault::NoMemory
    }
}

impl<T: Drop> From<AllocFailed<T>> for PortFault {
    ghost from_gives = { λ _ fault. fault ≡ NoMemory };

    fn from(_: AllocFailed<T>) -> Self {
        PortFault::NoMemory
    }
}
