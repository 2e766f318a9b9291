ghost use Rattle.std.specs.Prelude.{◌≤◌, vec_len};

use crate::{Failed, Source};

/// A source in memory that never fails.
#[derive(Debug, Drop)]
pub struct SureSource {
    bytes: Vec<u8>,
    at: usize,
    ghost in_range: { at ≤ vec_len bytes },
}

impl SureSource {
    ghost use Rattle.std.specs.Prelude.{◌≡◌};
    ghost use Rattle.wdf_io.specs.SureSource.{sure_left};

    /// A source that gives these bytes.
    pub fn new(bytes: Vec<u8>) -> Self
        ensures { sure_left result ≡ bytes.items }
    {
        SureSource { bytes, at: 0 }
    }
}

impl Source for SureSource {
    ghost use Rattle.std.specs.Prelude.{◌≡◌, ◌<◌, ◌^◌, min, length, drop, IsOk, IfOk, Some};
    ghost use Rattle.std.specs.Io.{ReadsAtMost};
    ghost use Rattle.std.specs.Io.KnownBytes.{ReadConsumes};
    ghost use Rattle.wdf_io.specs.Causes.{HasCause};
    ghost use Rattle.wdf_io.specs.SureSource.{sure_left};
    ghost use Rattle.std.proofs.Common.{rules};

    ghost left = { λ source. Some (sure_left source) };

    ghost faults = { λ _. 0 };

    ghost counted = { λ source. Prim.search rules };

    /// Gives the lesser of the buffer's length and the number of bytes left. It never fails.
    fn read(&mut self, buf: &mut [u8]) -> Result<usize, Failed>
        ensures bound { ReadsAtMost result buf.new }
        ensures bytes { ReadConsumes (Some (sure_left self.old)) (Some (sure_left self.new))
            result buf.new }
        ensures cause { HasCause 0 0 result }

        ensures sure { IsOk result }
        ensures count { IfOk result (λ n. n ≡ min (length buf.old) (length (sure_left self.old))) }
        ensures after { IfOk result (λ n. sure_left self.new ≡ drop n (sure_left self.old)) }
    {
        let rest = &self.bytes[self.at..];
        let count = buf.len().min(rest.len());
        buf[..count].copy_from_slice(&rest[..count]);
        self.at += count;
        Ok(count)
    }
}
