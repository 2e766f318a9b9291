use crate::{LoadError, Shelf};
use std::alloc::Global;

/// A shelf in memory that never fails.
#[derive(Debug, Drop)]
pub struct SureShelf {
    files: Vec<(String, Vec<u8>)>,
}

impl SureShelf {
    ghost use Rattle.std.specs.Prelude.{◌≡◌};
    ghost use Rattle.wdf_io.specs.SureShelf.{files_of, sure_files};

    /// A shelf of these files, each a name and its bytes. Where a name comes twice, its first pair
    /// counts.
    pub fn new(files: Vec<(String, Vec<u8>)>) -> Self
        ensures { sure_files result ≡ files_of files.items }
    {
        SureShelf { files }
    }
}

impl Shelf for SureShelf {
    ghost use Rattle.std.specs.Prelude.{◌≡◌, ◌≤◌, IfOk, IsErrOf, Some, vec_len};
    ghost use Rattle.std.proofs.Common.{rules};
    ghost use Rattle.wdf_io.specs.Causes.{LoadHasCause};
    ghost use Rattle.wdf_io.specs.Files.{LoadMeets};
    ghost use Rattle.wdf_io.specs.SureShelf.{sure_files};

    ghost files = { λ shelf. Some (sure_files shelf) };

    ghost faults = { λ _. 0 };

    ghost counted = { λ shelf. Prim.search rules };

    /// Never `Failed`.
    fn load(&mut self, alloc: Global, name: &str, limit: usize) -> Result<Vec<u8>, LoadError>
        ensures bound { IfOk result (λ v. vec_len v ≤ limit) }
        ensures answer { LoadMeets (sure_files self.old) name.now limit result }
        ensures same { sure_files self.new ≡ sure_files self.old }
        ensures cause { LoadHasCause 0 0 result }

        ensures sure { ¬ IsErrOf result LoadError.Failed }
    {
        for (file, bytes) in &self.files {
            if file.as_str() == name {
                if bytes.len() > limit {
                    return Err(LoadError::TooLarge);
                }
                return Ok(bytes.to_vec(alloc)?);
            }
        }
        Err(LoadError::Missing)
    }
}
