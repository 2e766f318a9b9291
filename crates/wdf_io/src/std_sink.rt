ghost use Rattle.std.specs.Prelude.{take, IfOk};
ghost use Rattle.std.specs.Io.{WritesAtMost};
ghost use Rattle.std.specs.Io.KnownBytes.{Appends};

use crate::count::Count;
use crate::{Failed, Sink};
use std::io::{self, Write};

/// A sink over a writer of std, as the standard output. It tells none of its bytes.
#[derive(Drop)]
pub struct StdSink<W> {
    inner: W,
    faults: Count,
}

impl<W: Write> StdSink<W> {
    ghost use Rattle.std.specs.Prelude.{◌≡◌};
    ghost use Rattle.wdf_io.specs.StdSink.{sink_faults, sink_writer};

    /// A sink over this writer, with a count of 0.
    pub fn new(inner: W) -> Self
        ensures writer { sink_writer result ≡ inner }
        ensures count { sink_faults result ≡ 0 }
    {
        StdSink {
            inner,
            faults: Count::zero(),
        }
    }
}

impl<W: Write> Sink for StdSink<W> {
    ghost use Rattle.std.specs.Prelude.{None, take, IfOk};
    ghost use Rattle.std.specs.Io.{WritesAtMost};
    ghost use Rattle.std.specs.Io.KnownBytes.{WriteAppends, Appends};
    ghost use Rattle.wdf_io.specs.Causes.{WriteHasCause, CountsFailures};
    ghost use Rattle.wdf_io.specs.StdSink.{sink_faults, sink_writer};

    ghost written = { λ _. None };

    ghost faults = { λ sink. sink_faults sink };

    ghost counted = { λ sink. sink.faults.bounded };

    /// Writes once to the writer, and flushes it. `Failed`, and the count rises, where either
    /// answers an error, or where the writer takes nothing of a piece that is not empty.
    fn write(&mut self, piece: &[u8]) -> Result<usize, Failed>
        ensures bound { WritesAtMost result piece.now }
        ensures bytes { WriteAppends None None result piece.now }
        ensures cause { WriteHasCause (sink_faults self.old) (sink_faults self.new)
            result piece.now }

        // The sink tells no bytes, but where the writer does, it gets these.
        ensures writer { let old = sink_writer self.old in let new = sink_writer self.new in
            IfOk result (λ n. Appends (W.contents old) (W.contents new) (take n piece.now)) }
        ensures count { CountsFailures (sink_faults self.old) (sink_faults self.new) result }
    {
        match write_through(&mut self.inner, piece) {
            Ok(count) if count > 0 || piece.is_empty() => Ok(count),
            _ => {
                self.faults.rise();
                Err(Failed)
            }
        }
    }
}

// Writes once, and flushes what was taken.
fn write_through<W: Write>(writer: &mut W, piece: &[u8]) -> io::Result<usize>
    ensures bound { WritesAtMost result piece.now }
    ensures bytes { IfOk result
        (λ n. Appends (W.contents writer.old) (W.contents writer.new) (take n piece.now)) }
{
    let count = writer.write(piece)?;
    writer.flush()?;
    Ok(count)
}
