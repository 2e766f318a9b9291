use crate::count::Count;
use crate::{Failed, Source};
use std::io::Read;

/// A source over a reader of std, as the standard input. It tells none of its bytes.
#[derive(Drop)]
pub struct StdSource<R> {
    inner: R,
    faults: Count,
}

impl<R: Read> StdSource<R> {
    ghost use Rattle.std.specs.Prelude.{◌≡◌};
    ghost use Rattle.wdf_io.specs.StdSource.{source_faults, source_reader};

    /// A source over this reader, with a count of 0.
    pub fn new(inner: R) -> Self
        ensures reader { source_reader result ≡ inner }
        ensures count { source_faults result ≡ 0 }
    {
        StdSource {
            inner,
            faults: Count::zero(),
        }
    }
}

impl<R: Read> Source for StdSource<R> {
    ghost use Rattle.std.specs.Prelude.{None};
    ghost use Rattle.std.specs.Io.{ReadsAtMost};
    ghost use Rattle.std.specs.Io.KnownBytes.{ReadConsumes};
    ghost use Rattle.wdf_io.specs.Causes.{HasCause, CountsFailures};
    ghost use Rattle.wdf_io.specs.StdSource.{source_faults, source_reader};

    ghost left = { λ _. None };

    ghost faults = { λ source. source_faults source };

    ghost counted = { λ source. source.faults.bounded };

    /// Reads once from the reader. `Failed`, and the count rises, where the reader answers an
    /// error.
    fn read(&mut self, buf: &mut [u8]) -> Result<usize, Failed>
        ensures bound { ReadsAtMost result buf.new }
        ensures bytes { ReadConsumes None None result buf.new }
        ensures cause { HasCause (source_faults self.old) (source_faults self.new) result }

        // The source tells no bytes, but where the reader does, it gives these.
        ensures reader { let old = source_reader self.old in let new = source_reader self.new in
            ReadConsumes (R.remaining old) (R.remaining new) result buf.new }
        ensures count { CountsFailures (source_faults self.old) (source_faults self.new) result }
    {
        match self.inner.read(buf) {
            Ok(count) => Ok(count),
            Err(_) => {
                self.faults.rise();
                Err(Failed)
            }
        }
    }
}
