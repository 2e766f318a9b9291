ghost use Rattle.std.specs.Prelude.{◌≡◌, ◌^◌, ◌<◌, ◌≤◌, ℕ, IfOk, vec_len};
ghost use Rattle.std.specs.declared.option.Option.{Option};
ghost use Rattle.wdf_io.specs.Causes.{LoadHasCause};
ghost use Rattle.wdf_io.specs.Files.{Files, LoadMeets};
ghost use Rattle.wdf_io.specs.Told.{Told};

use crate::LoadError;
use std::alloc::Global;

/// Where files are loaded from by their names.
pub trait Shelf {
    /// The files, where the shelf tells them. They never change.
    ghost files: { Self → Option Files };

    /// How often the shelf has failed. The count stands still at 2^64 - 1.
    ghost faults: { Self → ℕ };

    /// All bytes of the file of this name, at most `limit`.
    ///
    /// # Errors
    ///
    /// `Failed` only where the count of faults rose; it stands before the others. Else, by the told
    /// files: `Missing` exactly where there is no file of this name, `TooLarge` exactly where it
    /// holds more than `limit` bytes. `NoMemory` where there is no memory for the bytes.
    fn load(&mut self, alloc: Global, name: &str, limit: usize) -> Result<Vec<u8>, LoadError>
        ensures bound { IfOk result (λ v. vec_len v ≤ limit) }
        ensures answer { Told (files self.old) (λ fs. LoadMeets fs name.now limit result) }
        ensures same { files self.new ≡ files self.old }
        ensures cause { LoadHasCause (faults self.old) (faults self.new) result };

    /// The count is a number of 64 bits.
    ghost counted: { (shelf : Self) → faults shelf < 2 ^ 64 };
}
