ghost use Rattle.std.specs.Prelude.{◌^◌, ◌<◌, ℕ, List};
ghost use Rattle.std.specs.declared.option.Option.{Option};
ghost use Rattle.std.specs.Io.{WritesAtMost};
ghost use Rattle.std.specs.Io.KnownBytes.{WriteAppends};
ghost use Rattle.wdf_io.specs.Causes.{WriteHasCause};

use crate::Failed;

/// Where bytes are written to.
pub trait Sink {
    /// The bytes written so far, where the sink tells them.
    ghost written: { Self → Option (List ℕ) };

    /// How often the sink has failed. The count stands still at 2^64 - 1.
    ghost faults: { Self → ℕ };

    /// Takes some bytes from the front of `piece`, and says how many.
    ///
    /// `Ok(0)` of a piece that is not empty comes only where the count of faults rose.
    ///
    /// # Errors
    ///
    /// `Failed` only where the count of faults rose. No byte is then taken.
    fn write(&mut self, piece: &[u8]) -> Result<usize, Failed>
        ensures bound { WritesAtMost result piece.now }
        ensures bytes { WriteAppends (written self.old) (written self.new) result piece.now }
        ensures cause { WriteHasCause (faults self.old) (faults self.new) result piece.now };

    /// The count is a number of 64 bits.
    ghost counted: { (sink : Self) → faults sink < 2 ^ 64 };
}
