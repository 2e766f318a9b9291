//! Moves of whole buffers, from a source and to a sink that move what they like in each call.

ghost use Rattle.std.specs.Prelude.{◌<◌, length, take, IfOk, OnOk, OnErr};
ghost use Rattle.std.specs.Io.{ReadsAtMost};
ghost use Rattle.std.specs.Io.KnownBytes.{Consumes, Appends, IsAtEnd};
ghost use Rattle.wdf_io.specs.Causes.{HasCause};
ghost use Rattle.wdf_io.specs.Moved.{ConsumesAtMost, AppendsPart};

use crate::{Failed, Sink, Source};

/// Fills `buf` from a source, and says how many bytes it filled: all, or fewer where the input
/// ended before. Nothing is said of what stands behind them in `buf`.
///
/// # Errors
///
/// `Failed` only where the source's count of faults rose. Some bytes may then be taken from the
/// source, at most as many as `buf` holds, and nothing is said of `buf`.
pub fn take_exact<S: Source>(src: &mut S, buf: &mut [u8]) -> Result<usize, Failed>
    ensures bound { ReadsAtMost result buf.new }
    ensures bytes { IfOk result (λ n. Consumes (S.left src.old) (S.left src.new) (take n buf.new)) }
    ensures end { IfOk result (λ n. n < length buf.new → IsAtEnd (S.left src.new)) }
    ensures taken { OnErr result
        (ConsumesAtMost (S.left src.old) (S.left src.new) (length buf.old)) }
    ensures cause { HasCause (S.faults src.old) (S.faults src.new) result }
{
    let mut at = 0;
    while at < buf.len() {
        let count = src.read(&mut buf[at..])?;
        if count == 0 {
            return Ok(at);
        }
        at += count;
    }
    Ok(at)
}

/// Writes all of `piece` to a sink.
///
/// # Errors
///
/// `Failed` only where the sink's count of faults rose. A part of `piece` was then written from its
/// front on, and not all of it.
pub fn put_all<K: Sink>(sink: &mut K, piece: &[u8]) -> Result<(), Failed>
    ensures whole { OnOk result (Appends (K.written sink.old) (K.written sink.new) piece.now) }
    ensures part { OnErr result (AppendsPart (K.written sink.old) (K.written sink.new) piece.now) }
    ensures cause { HasCause (K.faults sink.old) (K.faults sink.new) result }
{
    let mut at = 0;
    while at < piece.len() {
        let count = sink.write(&piece[at..])?;
        if count == 0 {
            return Err(Failed);
        }
        at += count;
    }
    Ok(())
}
