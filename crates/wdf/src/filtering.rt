//! The command `run`.

ghost use Rattle.std.specs.Prelude.{◌≡◌, ◌≢◌, ◌≤◌, OnOk, IfErr, IsErrOf};
ghost use Rattle.wdf_io.specs.Causes.{Rose};
ghost use Rattle.wdf_frames.specs.declared.frame_stop.FrameStop.TheVariants as frames;
ghost use Rattle.wdf_stages.specs.declared.netlist_stop.NetlistStop.TheVariants as netlists;
ghost use Rattle.wdf_stages.specs.declared.open_stop.OpenStop.TheVariants as opens;
ghost use Rattle.wdf_words.specs.Orders.{HasRanges, IsFileNamed, texts};
ghost use Rattle.wdf.specs.RunAnswer.{DoneRun, RunStops};
ghost use Rattle.wdf.specs.World.{world};

use crate::beginning::begin_words;
use crate::noting::put_note;
use crate::{BeginningStop, Begun, FilteringStop, NetworksStop};
use std::alloc::Global;
use wdf_io::{Shelf, Sink, Source};
use wdf_words::Order;

/// Filters the wave on the input by the networks of the netlist that the words name, and writes the
/// wave of its load waves. Then it tells of the run on the note.
///
/// All memory is taken before the header is written.
///
/// # Errors
///
/// Those of [`begin_words`], those of [`WaveRun::write`](wdf_frames::WaveRun::write), and `Note`, in
/// this order; `Note` only where the note's count of faults rose.
pub fn filter_words<H: Shelf, I: Source, O: Sink, N: Sink>(
    alloc: Global,
    words: &[String],
    order: &Order,
    shelf: &mut H,
    input: &mut I,
    out: &mut O,
    note: &mut N,
) -> Result<(), FilteringStop>
    requires ranges { HasRanges order.now }
    requires named { IsFileNamed (texts words.now) order.now.net }
    ensures done { OnOk result
        (DoneRun (world (texts words.now) (H.files shelf.old) (I.left input.old) (I.left input.new) (O.written out.old) (O.written out.new) (N.written note.old) (N.written note.new)) order.now) }
    ensures refused { IfErr result
        (RunStops (world (texts words.now) (H.files shelf.old) (I.left input.old) (I.left input.new) (O.written out.old) (O.written out.new) (N.written note.old) (N.written note.new)) order.now) }
    ensures quiet { IfErr result (λ stop. stop ≢ FilteringStop.Note → note.new ≡ note.old) }
    ensures later { N.faults note.old ≤ N.faults note.new }
    ensures load_fault { IsErrOf result (FilteringStop.Begin (BeginningStop.Networks (NetworksStop.Netlist netlists.LoadFault))) → Rose (H.faults shelf.old) (H.faults shelf.new) }
    ensures head_fault { IsErrOf result (FilteringStop.Begin (BeginningStop.Open opens.ReadFault)) → Rose (I.faults input.old) (I.faults input.new) }
    ensures read_fault { IsErrOf result (FilteringStop.Frame frames.ReadFault) → Rose (I.faults input.old) (I.faults input.new) }
    ensures write_fault { IsErrOf result (FilteringStop.Frame frames.WriteFault) → Rose (O.faults out.old) (O.faults out.new) }
    ensures note_fault { IsErrOf result FilteringStop.Note → Rose (N.faults note.old) (N.faults note.new) }
{
    let Begun {
        report,
        frames,
        mut wave_run,
    } = begin_words(alloc, words, order, shelf, input)?;
    wave_run.write(input, out)?;
    put_note(note, &report, frames, &wave_run)?;
    Ok(())
}
