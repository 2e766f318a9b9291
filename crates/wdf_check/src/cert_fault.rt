ghost use Rattle.std.specs.Prelude.{◌≡◌};

use std::alloc::AllocError;

/// Why a certificate is refused.
#[derive(Clone, Copy, Debug, PartialEq, Eq)]
pub enum CertFault {
    /// It is another network's: at 0 the width k differs, from 1 on the multiplier at this place.
    /// `ours` is the network's number, `theirs` the certificate's.
    OtherNet { at: usize, ours: u32, theirs: u32 },
    /// It has `have` multipliers or rows, where the network has `want`.
    WrongSize { have: usize, want: usize },
    /// The entry at this place of its rows is no row of the observability matrix.
    BadRow { row: usize },
    /// The product of its inverse with the rows has the entry `got`, which is not the identity's.
    WrongProduct { row: usize, col: usize, got: u64 },
    /// There are `have` certificates for `want` networks. A check of one certificate never answers
    /// so.
    WrongCount { have: usize, want: usize },
    /// No memory is left.
    NoMemory,
}

impl From<AllocError> for CertFault {
    ghost use Rattle.wdf_check.specs.declared.cert_fault.CertFault.TheVariants.{NoMemory};

    ghost from_gives = { λ _ e. e ≡ NoMemory };

    fn from(_: AllocError) -> Self {
        CertFault::NoMemory
    }
}
