ghost use Rattle.std.specs.Prelude.{◌≡◌};
ghost use Rattle.wdf_cert.specs.declared.cert_text_fault.CertTextFault.TheVariants.{NoMemory};

use std::alloc::{AllocError, AllocFailed};

/// Why a text is no certificate file.
#[derive(Clone, Copy, Debug, PartialEq, Eq)]
pub enum CertTextFault {
    /// The token at this offset is not the expected one; the end of the text counts as a token.
    Syntax { at: usize },
    /// The number at this offset is out of its range.
    Range { at: usize },
    /// No memory is left.
    NoMemory,
}

impl From<AllocError> for CertTextFault {
    ghost from_gives = { λ _ e. e ≡ NoMemory };

    fn from(_: AllocError) -> Self {
        CertTextFault::NoMemory
    }
}

impl<T: Drop> From<AllocFailed<T>> for CertTextFault {
    ghost from_gives = { λ _ e. e ≡ NoMemory };

    fn from(_: AllocFailed<T>) -> Self {
        CertTextFault::NoMemory
    }
}
