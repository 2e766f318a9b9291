//! Why a text was not read as a netlist.

ghost use Rattle.std.specs.Prelude.{◌≡◌};
ghost use Rattle.wdf_netlist.specs.declared.read_error.ReadError.TheVariants.{Fault, NoMemory};

use crate::NetFault;
use std::alloc::{AllocError, AllocFailed};
use thiserror::Error;

/// Why a text was not read as a netlist.
#[derive(Clone, Copy, Debug, PartialEq, Eq, Error)]
pub enum ReadError {
    /// It stands for none.
    #[error("the text is no netlist")]
    Fault(NetFault),
    /// There was no memory for the netlist.
    #[error("there is no memory for the netlist")]
    NoMemory,
}

impl From<NetFault> for ReadError {
    ghost from_gives = { λ f e. e ≡ Fault f };

    fn from(fault: NetFault) -> Self {
        ReadError::Fault(fault)
    }
}

impl From<AllocError> for ReadError {
    ghost from_gives = { λ _ e. e ≡ NoMemory };

    fn from(_: AllocError) -> Self {
        ReadError::NoMemory
    }
}

impl<T: Drop> From<AllocFailed<T>> for ReadError {
    ghost from_gives = { λ _ e. e ≡ NoMemory };

    fn from(_: AllocFailed<T>) -> Self {
        ReadError::NoMemory
    }
}
