ghost use Rattle.std.specs.Prelude.{◌≡◌};

use std::alloc::AllocError;
use wdf_check::Kernel;

/// Why no certificate is made.
#[derive(Drop)]
pub enum MakeFault {
    /// A resistor or source never sees some state: column `state` of the observability matrix is the
    /// first that depends on the columns before it, and the product of the matrix with `kernel` is 0.
    /// The kernel is 1 at that column and 0 behind it.
    Unobservable { state: u32, kernel: Kernel },
    /// No memory is left.
    NoMemory,
}

impl From<AllocError> for MakeFault {
    ghost use Rattle.wdf_cert.specs.declared.make_fault.MakeFault.TheVariants.{NoMemory};

    ghost from_gives = { λ _ e. e ≡ NoMemory };

    fn from(_: AllocError) -> Self {
        MakeFault::NoMemory
    }
}
