//! Why no netlist was loaded.

ghost use Rattle.std.specs.Prelude.{◌≡◌};
ghost use Rattle.wdf_stages.specs.NetlistLoading.{netlist_stop_of, reading_stop_of};

use crate::FileStop;
use wdf_netlist::{NetFault, ReadError};

/// Why no netlist was loaded.
#[derive(Clone, Copy, Debug, PartialEq, Eq)]
pub enum NetlistStop {
    /// The shelf has no file of the name in this word.
    Missing { word: usize },
    /// The file of the name in this word holds more than [`MAX_FILE`](crate::MAX_FILE) bytes.
    FileTooLarge { word: usize },
    /// The file stands for no netlist: this is its first fault.
    NetText { fault: NetFault },
    /// The shelf failed: its count of faults rose in the call. It stands before the others.
    LoadFault,
    /// There was no memory for the file or the netlist.
    NoMemory,
}

impl From<FileStop> for NetlistStop {
    ghost from_gives = { λ stop s. s ≡ netlist_stop_of stop };

    fn from(stop: FileStop) -> Self {
        match stop {
            FileStop::Missing { word } => NetlistStop::Missing { word },
            FileStop::FileTooLarge { word } => NetlistStop::FileTooLarge { word },
            FileStop::LoadFault => NetlistStop::LoadFault,
            FileStop::NoMemory => NetlistStop::NoMemory,
        }
    }
}

impl From<ReadError> for NetlistStop {
    ghost from_gives = { λ error s. s ≡ reading_stop_of error };

    fn from(error: ReadError) -> Self {
        match error {
            ReadError::Fault(fault) => NetlistStop::NetText { fault },
            ReadError::NoMemory => NetlistStop::NoMemory,
        }
    }
}
