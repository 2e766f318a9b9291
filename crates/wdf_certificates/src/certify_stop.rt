//! Why there is no certificate for each network.

ghost use Rattle.std.specs.Prelude.{◌≡◌};
ghost use Rattle.wdf_certificates.specs.declared.certify_stop.CertifyStop.TheVariants.{NoMemory};

use std::alloc::AllocError;
use wdf_check::Kernel;
use wdf_law::Side;
use wdf_text::Name;

/// Why there is no certificate for each network.
#[derive(Drop)]
pub enum CertifyStop {
    /// No resistor or source ever sees some state of this side's network: that of `element` and, by
    /// the numbers of the kernel, those before it. The reactances are numbered in netlist order.
    Unobservable {
        side: Side,
        element: Name,
        kernel: Kernel,
    },
    /// There was no memory.
    NoMemory,
}

impl From<AllocError> for CertifyStop {
    ghost from_gives = { λ _ s. s ≡ NoMemory };

    fn from(_: AllocError) -> Self {
        CertifyStop::NoMemory
    }
}
