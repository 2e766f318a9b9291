ghost use Rattle.std.specs.Prelude.{◌+◌, ◌≤◌, vec_len, vec_capacity};

use crate::calls::Calls;
use crate::{Failed, NoMemory, Sink};
use std::alloc::Global;

/// A sink in memory that fails at given calls, takes its bytes in pieces and has only so much room.
#[derive(Debug, Drop)]
pub struct MemSink {
    bytes: Vec<u8>,
    piece: usize,
    room: usize,
    calls: Calls,
    ghost moves: { 1 ≤ piece },
    ghost reserved: { vec_len bytes + room ≤ vec_capacity bytes },
}

impl MemSink {
    ghost use Rattle.std.specs.Prelude.{◌≡◌, [], IfOk};
    ghost use Rattle.wdf_io.specs.Calls.{no_calls};
    ghost use Rattle.wdf_io.specs.MemSink.{sink_state};

    /// A sink that takes `room` bytes in all and at most `piece` in a call. The calls whose numbers
    /// stand in `fails` fail; calls are numbered from 0 on, and calls past number 2^64 - 1 have
    /// that number.
    ///
    /// # Errors
    ///
    /// `NoMemory` where there is no memory for the room. No later call takes memory.
    pub fn new(alloc: Global, fails: Vec<u64>, piece: usize, room: usize) -> Result<Self, NoMemory>
        requires { 1 ≤ piece }
        ensures { IfOk result (λ sink. sink_state sink
            ≡ record { written = []; piece = piece; room = room; calls = no_calls fails.items }) }
    {
        Ok(MemSink {
            bytes: Vec::with_capacity(alloc, room)?,
            piece,
            room,
            calls: Calls::new(fails),
        })
    }

    /// The bytes written so far.
    pub fn bytes(&self) -> &[u8]
        ensures { result.now ≡ (sink_state self.now).written }
    {
        &self.bytes
    }
}

impl Sink for MemSink {
    ghost use Rattle.std.specs.Prelude.{◌≡◌, ◌↔◌, min, length, IsErr, IfOk, Some};
    ghost use Rattle.std.specs.Io.{WritesAtMost};
    ghost use Rattle.std.specs.Io.KnownBytes.{WriteAppends};
    ghost use Rattle.wdf_io.specs.Causes.{WriteHasCause};
    ghost use Rattle.wdf_io.specs.Calls.{FailsNext};
    ghost use Rattle.wdf_io.specs.MemSink.{sink_state, after_write};

    ghost written = { λ sink. Some (sink_state sink).written };

    ghost faults = { λ sink. (sink_state sink).calls.faults };

    ghost counted = { λ sink. sink.calls.faults.bounded };

    /// Fails exactly at the calls whose numbers were given. Any other call takes the least of the
    /// sink's piece, the length of `piece` and the room left; where that is 0 and `piece` is not
    /// empty, the count rises.
    fn write(&mut self, piece: &[u8]) -> Result<usize, Failed>
        ensures bound { WritesAtMost result piece.now }
        ensures bytes { let old = sink_state self.old in let new = sink_state self.new in
            WriteAppends (Some old.written) (Some new.written) result piece.now }
        ensures cause { let old = sink_state self.old in let new = sink_state self.new in
            WriteHasCause old.calls.faults new.calls.faults result piece.now }

        ensures failing { IsErr result ↔ FailsNext (sink_state self.old).calls }
        ensures count { let old = sink_state self.old in
            IfOk result (λ n. n ≡ min old.piece (min (length piece.now) old.room)) }
        ensures after { sink_state self.new ≡ after_write (sink_state self.old) result piece.now }
    {
        if self.calls.next_fails() {
            return Err(Failed);
        }
        let count = self.piece.min(piece.len()).min(self.room);
        if count == 0 && !piece.is_empty() {
            self.calls.count_fault();
        }
        // There is room: it was taken when the sink was made.
        self.bytes.extend_from_slice(&piece[..count]).unwrap();
        self.room -= count;
        Ok(count)
    }
}
