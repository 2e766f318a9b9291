use crate::calls::Calls;
use crate::{LoadError, Shelf, SureShelf};
use std::alloc::Global;

/// A shelf in memory that fails at given calls.
#[derive(Debug, Drop)]
pub struct MemShelf {
    inner: SureShelf,
    calls: Calls,
}

impl MemShelf {
    ghost use Rattle.std.specs.Prelude.{◌≡◌};
    ghost use Rattle.wdf_io.specs.Calls.{no_calls};
    ghost use Rattle.wdf_io.specs.MemShelf.{shelf_state};
    ghost use Rattle.wdf_io.specs.SureShelf.{files_of};

    /// A shelf of these files, each a name and its bytes. Where a name comes twice, its first pair
    /// counts. The calls whose numbers stand in `fails` fail; calls are numbered from 0 on, and
    /// calls past number 2^64 - 1 have that number.
    pub fn new(files: Vec<(String, Vec<u8>)>, fails: Vec<u64>) -> Self
        ensures { shelf_state result
            ≡ record { files = files_of files.items; calls = no_calls fails.items } }
    {
        MemShelf {
            inner: SureShelf::new(files),
            calls: Calls::new(fails),
        }
    }
}

impl Shelf for MemShelf {
    ghost use Rattle.std.specs.Prelude.{◌≡◌, ◌≤◌, ◌↔◌, IfOk, IsErrOf, Some, vec_len};
    ghost use Rattle.wdf_io.specs.Calls.{FailsNext};
    ghost use Rattle.wdf_io.specs.Causes.{LoadHasCause};
    ghost use Rattle.wdf_io.specs.Files.{LoadMeets};
    ghost use Rattle.wdf_io.specs.MemShelf.{shelf_state, after_load};

    ghost files = { λ shelf. Some (shelf_state shelf).files };

    ghost faults = { λ shelf. (shelf_state shelf).calls.faults };

    ghost counted = { λ shelf. shelf.calls.faults.bounded };

    /// `Failed` exactly at the calls whose numbers were given.
    fn load(&mut self, alloc: Global, name: &str, limit: usize) -> Result<Vec<u8>, LoadError>
        ensures bound { IfOk result (λ v. vec_len v ≤ limit) }
        ensures answer { LoadMeets (shelf_state self.old).files name.now limit result }
        ensures same { (shelf_state self.new).files ≡ (shelf_state self.old).files }
        ensures cause { let old = shelf_state self.old in let new = shelf_state self.new in
            LoadHasCause old.calls.faults new.calls.faults result }

        ensures failing { IsErrOf result LoadError.Failed ↔ FailsNext (shelf_state self.old).calls }
        ensures after { shelf_state self.new ≡ after_load (shelf_state self.old) result }
    {
        if self.calls.next_fails() {
            return Err(LoadError::Failed);
        }
        self.inner.load(alloc, name, limit)
    }
}
