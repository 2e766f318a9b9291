//! The line that tells why a run stopped.

ghost use Rattle.wdf_stages.specs.Noting.{GainsLine};

use wdf_io::{Sink, put_all};

/// Tries to write a line on the note. A failure changes nothing of the answer that it tells.
///
/// The note gains the whole line where its count of faults did not rise, else some front of it.
pub fn note_line<N: Sink>(note: &mut N, line: &[u8])
    ensures { GainsLine (N.written note.old) (N.written note.new) (N.faults note.old) (N.faults note.new) line.now }
{
    let _ = put_all(note, line);
}
