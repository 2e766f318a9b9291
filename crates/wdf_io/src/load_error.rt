//! Why a file was not loaded.

ghost use Rattle.std.specs.Prelude.{◌≡◌};
ghost use Rattle.wdf_io.specs.declared.load_error.LoadError.TheVariants.{NoMemory};

use std::alloc::{AllocError, AllocFailed};
use thiserror::Error;

/// Why a file was not loaded. `Failed` stands before the other answers.
#[derive(Clone, Copy, Debug, PartialEq, Eq, Error)]
pub enum LoadError {
    /// The shelf has no file of this name.
    #[error("there is no such file")]
    Missing,
    /// The file holds more bytes than the limit.
    #[error("the file is larger than its limit")]
    TooLarge,
    /// The shelf failed: its count of faults rose in the call.
    #[error("reading the file failed")]
    Failed,
    /// There was no memory for the bytes.
    #[error("there is no memory for the file")]
    NoMemory,
}

impl From<AllocError> for LoadError {
    ghost from_gives = { λ _ e. e ≡ NoMemory };

    fn from(_: AllocError) -> Self {
        LoadError::NoMemory
    }
}

impl<T: Drop> From<AllocFailed<T>> for LoadError {
    ghost from_gives = { λ _ e. e ≡ NoMemory };

    fn from(_: AllocFailed<T>) -> Self {
        LoadError::NoMemory
    }
}
