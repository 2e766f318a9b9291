ghost use Rattle.std.specs.Prelude.{◌≤◌, ◌<◌, length, IfOk, OnOk, IfSome, IsErrOf, vec_len};
ghost use Rattle.std.specs.Io.KnownBytes.{Consumes, IsAtEnd};

use crate::count::Count;
use crate::{LoadError, Shelf};
use std::alloc::Global;
use std::fs;
use std::io::{ErrorKind, Read};
use std::rt::Files;

/// The bytes that one read of a file asks for.
const BLOCK: usize = 4096;

/// A shelf over the system's files: a name is a path. It tells none of its files.
#[derive(Drop)]
pub struct DirShelf<'a, R> {
    rt: &'a R,
    faults: Count,
}

impl<'a, R: Files> DirShelf<'a, R> {
    ghost use Rattle.std.specs.Prelude.{◌≡◌};
    ghost use Rattle.wdf_io.specs.DirShelf.{dir_faults};

    /// A shelf that opens its files through this runtime, with a count of 0.
    pub fn new(rt: &'a R) -> Self
        ensures { dir_faults result ≡ 0 }
    {
        DirShelf {
            rt,
            faults: Count::zero(),
        }
    }
}

impl<R: Files> Shelf for DirShelf<'_, R> {
    ghost use Rattle.std.specs.Prelude.{◌≡◌, ◌≤◌, IfOk, vec_len};
    ghost use Rattle.wdf_io.specs.Causes.{LoadHasCause, CountsFailures};
    ghost use Rattle.wdf_io.specs.DirShelf.{dir_faults, not_told};
    ghost use Rattle.wdf_io.specs.Files.{LoadMeets};
    ghost use Rattle.wdf_io.specs.Told.{Told};

    ghost files = { λ _. not_told };

    ghost faults = { λ shelf. dir_faults shelf };

    ghost counted = { λ shelf. shelf.faults.bounded };

    /// The whole file at this path. `Missing` where the system says that it is not found,
    /// `TooLarge` where more than `limit` bytes came, `Failed` at any other error of the system.
    /// The count rises at each of these, and at `NoMemory`.
    fn load(&mut self, alloc: Global, name: &str, limit: usize) -> Result<Vec<u8>, LoadError>
        ensures bound { IfOk result (λ v. vec_len v ≤ limit) }
        ensures answer { Told not_told (λ fs. LoadMeets fs name.now limit result) }
        ensures same { not_told ≡ not_told }
        ensures cause { LoadHasCause (dir_faults self.old) (dir_faults self.new) result }

        ensures count { CountsFailures (dir_faults self.old) (dir_faults self.new) result }
    {
        let result = read_file(self.rt, alloc, name, limit);
        if result.is_err() {
            self.faults.rise();
        }
        result
    }
}

// The whole file at this path.
fn read_file<R: Files>(
    rt: &R,
    alloc: Global,
    name: &str,
    limit: usize,
) -> Result<Vec<u8>, LoadError>
    ensures { IfOk result (λ v. vec_len v ≤ limit) }
{
    match fs::open(rt, name) {
        Ok(mut file) => read_within(&mut file, alloc, limit),
        Err(error) if error.kind() == ErrorKind::NotFound => Err(LoadError::Missing),
        Err(_) => Err(LoadError::Failed),
    }
}

// All bytes of a reader. It takes few more than the limit of them, since there may be no end.
fn read_within<R: Read>(reader: &mut R, alloc: Global, limit: usize) -> Result<Vec<u8>, LoadError>
    ensures bound { IfOk result (λ v. vec_len v ≤ limit) }

    // Where the reader tells its bytes.
    ensures whole { IfOk result
        (λ v. Consumes (R.remaining reader.old) (R.remaining reader.new) v.items) }
    ensures end { OnOk result (IsAtEnd (R.remaining reader.new)) }
    ensures too_large { IsErrOf result LoadError.TooLarge
        → IfSome (R.remaining reader.old) (λ bytes. limit < length bytes) }
{
    let mut bytes = Vec::new(alloc);
    let mut block = [0; BLOCK];
    while bytes.len() <= limit {
        match reader.read(&mut block) {
            Ok(0) => return Ok(bytes),
            Ok(count) => bytes.extend_from_slice(&block[..count])?,
            Err(_) => return Err(LoadError::Failed),
        }
    }
    Err(LoadError::TooLarge)
}
