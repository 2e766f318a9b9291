//! A source that gives its second block only where the first was written.

ghost use Rattle.std.specs.Prelude.{◌≤◌, ◌<◌, ◌^◌, None, vec_len};
ghost use Rattle.std.specs.Io.{ReadsAtMost, WritesAtMost};
ghost use Rattle.std.specs.Io.KnownBytes.{ReadConsumes, WriteAppends};
ghost use Rattle.wdf_io.specs.Causes.{HasCause, WriteHasCause};
ghost use Rattle.std.proofs.Common.{rules};

use super::circuits::DIVIDER;
use crate::run::run;
use std::alloc::Global;
use std::cell::Cell;
use std::test::Fail;
use wdf_io::{Failed, MemShelf, Sink, Source};

// The header of 8,192 frames of one channel of 16 bits: two blocks.
const HEADER: &[u8; 44] =
    b"RIFF$@\0\0WAVEfmt \x10\0\0\0\x01\0\x01\0\x80\xbb\0\0\0w\x01\0\x02\0\x10\0data\0@\0\0";

// The bytes of the header and the first block.
const FIRST: usize = 44 + 2 * 4_096;

// Zeros behind the header. It fails, and goes on to fail, where it is asked for what stands behind the
// first block and less than that was written.
#[derive(Drop)]
struct Waiting<'a> {
    written: &'a Cell<usize>,
    given: usize,
    faults: u64,
    ghost bounded: { faults < 2 ^ 64 },
}

impl Source for Waiting<'_> {
    ghost left = { λ _. None };

    ghost faults = { λ source. source.faults };

    ghost counted = { λ source. source.bounded };

    fn read(&mut self, buf: &mut [u8]) -> Result<usize, Failed> {
        if self.given >= FIRST && self.written.get() < FIRST {
            self.faults = self.faults.saturating_add(1);
            return Err(Failed);
        }
        if self.given < 44 {
            let head = HEADER.as_slice();
            let rest = &head[self.given..];
            let count = buf.len().min(rest.len());
            buf[..count].copy_from_slice(&rest[..count]);
            self.given += count;
            return Ok(count);
        }
        let count = buf.len().min(FIRST);
        buf[..count].fill(0);
        self.given = self.given.saturating_add(count);
        Ok(count)
    }
}

// A sink that counts its bytes.
#[derive(Drop)]
struct Counting<'a> {
    written: &'a Cell<usize>,
}

impl Sink for Counting<'_> {
    ghost written = { λ _. None };

    ghost faults = { λ _. 0 };

    ghost counted = { λ sink. Prim.search rules };

    fn write(&mut self, piece: &[u8]) -> Result<usize, Failed> {
        self.written
            .set(self.written.get().saturating_add(piece.len()));
        Ok(piece.len())
    }
}

#[test]
fn a_block_is_written_before_the_next_is_read(rt: HostRuntime) -> Result<(), Fail> {
    let alloc = rt.alloc();
    let written = Cell::new(0);
    let mut input = Waiting {
        written: &written,
        given: 0,
        faults: 0,
    };
    let mut out = Counting { written: &written };
    let noted = Cell::new(0);
    let mut note = Counting { written: &noted };
    let words = vec![in alloc;
        String::from_str(alloc, "run")?,
        String::from_str(alloc, "net=N")?,
    ]?;
    let file = (String::from_str(alloc, "N")?, DIVIDER.to_vec(alloc)?);
    let mut shelf = MemShelf::new(vec![in alloc; file]?, Vec::new(alloc));
    let status = run(alloc, &words, &mut shelf, &mut input, &mut out, &mut note);
    assert_eq!(rt; status.code(), 0);
    assert_eq!(rt; written.get(), 44 + 4 * 4_096);
    assert!(rt; noted.get() > 0);
    Ok(())
}
