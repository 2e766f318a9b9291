ghost use Rattle.std.specs.Prelude.{◌≤◌};

use crate::calls::Calls;
use crate::{Failed, Source, SureSource};

/// A source in memory that fails at given calls and gives its bytes in pieces.
#[derive(Debug, Drop)]
pub struct MemSource {
    inner: SureSource,
    piece: usize,
    calls: Calls,
    ghost moves: { 1 ≤ piece },
}

impl MemSource {
    ghost use Rattle.std.specs.Prelude.{◌≡◌};
    ghost use Rattle.wdf_io.specs.Calls.{no_calls};
    ghost use Rattle.wdf_io.specs.MemSource.{source_state};

    /// A source that gives these bytes, at most `piece` in a call. The calls whose numbers stand in
    /// `fails` fail; calls are numbered from 0 on, and calls past number 2^64 - 1 have that number.
    pub fn new(bytes: Vec<u8>, fails: Vec<u64>, piece: usize) -> Self
        requires { 1 ≤ piece }
        ensures { source_state result
            ≡ record { left = bytes.items; piece = piece; calls = no_calls fails.items } }
    {
        MemSource {
            inner: SureSource::new(bytes),
            piece,
            calls: Calls::new(fails),
        }
    }
}

impl Source for MemSource {
    ghost use Rattle.std.specs.Prelude.{◌≡◌, ◌↔◌, min, length, IsErr, IfOk, Some};
    ghost use Rattle.std.specs.Io.{ReadsAtMost};
    ghost use Rattle.std.specs.Io.KnownBytes.{ReadConsumes};
    ghost use Rattle.wdf_io.specs.Causes.{HasCause};
    ghost use Rattle.wdf_io.specs.Calls.{FailsNext};
    ghost use Rattle.wdf_io.specs.MemSource.{source_state, after_read};

    ghost left = { λ source. Some (source_state source).left };

    ghost faults = { λ source. (source_state source).calls.faults };

    ghost counted = { λ source. source.calls.faults.bounded };

    /// Fails exactly at the calls whose numbers were given. Any other call gives the least of the
    /// piece, the buffer's length and the number of bytes left.
    fn read(&mut self, buf: &mut [u8]) -> Result<usize, Failed>
        ensures bound { ReadsAtMost result buf.new }
        ensures bytes { let old = source_state self.old in let new = source_state self.new in
            ReadConsumes (Some old.left) (Some new.left) result buf.new }
        ensures cause { let old = source_state self.old in let new = source_state self.new in
            HasCause old.calls.faults new.calls.faults result }

        ensures failing { IsErr result ↔ FailsNext (source_state self.old).calls }
        ensures count { let old = source_state self.old in
            IfOk result (λ n. n ≡ min old.piece (min (length buf.old) (length old.left))) }
        ensures after { source_state self.new ≡ after_read (source_state self.old) result }
    {
        if self.calls.next_fails() {
            return Err(Failed);
        }
        let most = self.piece.min(buf.len());
        self.inner.read(&mut buf[..most])
    }
}
