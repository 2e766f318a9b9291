//! Why no certificates were loaded.

ghost use Rattle.std.specs.Prelude.{◌≡◌};
ghost use Rattle.wdf_certificates.specs.CertLoading.{load_stop_of, reading_stop_of};

use wdf_cert::CertTextFault;
use wdf_stages::FileStop;

/// Why no certificates were loaded.
#[derive(Clone, Copy, Debug, PartialEq, Eq)]
pub enum LoadStop {
    /// The shelf has no file of the name in this word.
    Missing { word: usize },
    /// The file of the name in this word holds more than [`MAX_FILE`](wdf_stages::MAX_FILE) bytes.
    FileTooLarge { word: usize },
    /// The file is none of certificates: at this byte stands another token than the one expected, or,
    /// where `range` is set, a number out of its range.
    CertText { at: usize, range: bool },
    /// The shelf failed: its count of faults rose in the call. It stands before the others.
    LoadFault,
    /// There was no memory.
    NoMemory,
}

impl From<FileStop> for LoadStop {
    ghost from_gives = { λ stop s. s ≡ load_stop_of stop };

    fn from(stop: FileStop) -> Self {
        match stop {
            FileStop::Missing { word } => LoadStop::Missing { word },
            FileStop::FileTooLarge { word } => LoadStop::FileTooLarge { word },
            FileStop::LoadFault => LoadStop::LoadFault,
            FileStop::NoMemory => LoadStop::NoMemory,
        }
    }
}

impl From<CertTextFault> for LoadStop {
    ghost from_gives = { λ fault s. s ≡ reading_stop_of fault };

    fn from(fault: CertTextFault) -> Self {
        match fault {
            CertTextFault::Syntax { at } => LoadStop::CertText { at, range: false },
            CertTextFault::Range { at } => LoadStop::CertText { at, range: true },
            CertTextFault::NoMemory => LoadStop::NoMemory,
        }
    }
}
