//! Files of the shelf.

ghost use Rattle.std.specs.Prelude.{◌≡◌, ◌≤◌, IfOk, IfErr, IsErrOf};
ghost use Rattle.wdf_io.specs.Causes.{Rose};
ghost use Rattle.wdf_stages.specs.FileLoading.{IsFile, FileRefuses};

use crate::FileStop;
use std::alloc::Global;
use wdf_io::{LoadError, Shelf};

/// The most bytes of a file that is loaded.
pub const MAX_FILE: usize = 1_048_576;

/// All bytes of the file of this name, which stands in this word.
///
/// # Errors
///
/// `LoadFault` only where the shelf's count of faults rose. Else, by the told files: `Missing` exactly
/// where there is no file of this name, `FileTooLarge` exactly where it holds more than [`MAX_FILE`]
/// bytes. `NoMemory` where there is no memory for the bytes.
pub fn load_file<H: Shelf>(
    alloc: Global,
    shelf: &mut H,
    word: usize,
    name: &str,
) -> Result<Vec<u8>, FileStop>
    ensures file { IfOk result (λ v. IsFile (H.files shelf.old) name.now v.items) }
    ensures refused { IfErr result (FileRefuses (H.files shelf.old) word name.now) }
    ensures same { H.files shelf.new ≡ H.files shelf.old }
    ensures later { H.faults shelf.old ≤ H.faults shelf.new }
    ensures load_fault { IsErrOf result FileStop.LoadFault → Rose (H.faults shelf.old) (H.faults shelf.new) }
{
    match shelf.load(alloc, name, MAX_FILE) {
        Ok(bytes) => Ok(bytes),
        Err(LoadError::Missing) => Err(FileStop::Missing { word }),
        Err(LoadError::TooLarge) => Err(FileStop::FileTooLarge { word }),
        Err(LoadError::Failed) => Err(FileStop::LoadFault),
        Err(LoadError::NoMemory) => Err(FileStop::NoMemory),
    }
}
