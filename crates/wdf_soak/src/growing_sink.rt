ghost use Rattle.std.specs.Prelude.{◌^◌, ◌<◌};

use std::alloc::{AllocError, Global};
use wdf_io::{Failed, Sink};

/// A sink in memory that fails only where there is no memory for a piece. It takes each piece whole.
#[derive(Debug, Drop)]
pub(crate) struct GrowingSink {
    bytes: Vec<u8>,
    faults: u64,
    ghost bounded: { faults < 2 ^ 64 },
}

impl GrowingSink {
    ghost use Rattle.std.specs.Prelude.{◌≡◌, [], IfOk};
    ghost use Rattle.wdf_soak.specs.GrowingSink.{held_bytes};

    /// A sink with memory for so many bytes.
    pub(crate) fn new(alloc: Global, room: usize) -> Result<Self, AllocError>
        ensures { IfOk result (λ sink. held_bytes sink ≡ []) }
    {
        Ok(GrowingSink {
            bytes: Vec::with_capacity(alloc, room)?,
            faults: 0,
        })
    }

    /// The bytes written.
    pub(crate) fn into_bytes(self) -> Vec<u8>
        ensures { result.items ≡ held_bytes self }
    {
        self.bytes
    }
}

impl Sink for GrowingSink {
    ghost use Rattle.std.specs.Prelude.{Some};
    ghost use Rattle.std.specs.Io.{WritesAtMost};
    ghost use Rattle.std.specs.Io.KnownBytes.{WriteAppends};
    ghost use Rattle.wdf_io.specs.Causes.{WriteHasCause};
    ghost use Rattle.wdf_soak.specs.GrowingSink.{held_bytes, held_faults};

    ghost written = { λ sink. Some (held_bytes sink) };

    ghost faults = { λ sink. held_faults sink };

    ghost counted = { λ sink. sink.bounded };

    fn write(&mut self, piece: &[u8]) -> Result<usize, Failed>
        ensures bound { WritesAtMost result piece.now }
        ensures bytes { WriteAppends (Some (held_bytes self.old)) (Some (held_bytes self.new)) result piece.now }
        ensures cause { WriteHasCause (held_faults self.old) (held_faults self.new) result piece.now }
    {
        if self.bytes.extend_from_slice(piece).is_err() {
            self.faults = self.faults.saturating_add(1);
            return Err(Failed);
        }
        Ok(piece.len())
    }
}
