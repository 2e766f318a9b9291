ghost use Rattle.std.specs.Prelude.{◌^◌, ◌<◌, ℕ, List};
ghost use Rattle.std.specs.declared.option.Option.{Option};
ghost use Rattle.std.specs.Io.{ReadsAtMost};
ghost use Rattle.std.specs.Io.KnownBytes.{ReadConsumes};
ghost use Rattle.wdf_io.specs.Causes.{HasCause};

use crate::Failed;

/// Where bytes are read from.
pub trait Source {
    /// The bytes that are not yet read, where the source tells them.
    ghost left: { Self → Option (List ℕ) };

    /// How often the source has failed. The count stands still at 2^64 - 1.
    ghost faults: { Self → ℕ };

    /// Reads some bytes into the front of `buf`, and says how many. They are the first of those
    /// that are left. Nothing is said of the rest of `buf`.
    ///
    /// `Ok(0)` on a buffer that is not empty is the end of the input.
    ///
    /// # Errors
    ///
    /// `Failed` only where the count of faults rose. No byte is then taken.
    fn read(&mut self, buf: &mut [u8]) -> Result<usize, Failed>
        ensures bound { ReadsAtMost result buf.new }
        ensures bytes { ReadConsumes (left self.old) (left self.new) result buf.new }
        ensures cause { HasCause (faults self.old) (faults self.new) result };

    /// The count is a number of 64 bits.
    ghost counted: { (source : Self) → faults source < 2 ^ 64 };
}
