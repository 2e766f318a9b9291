//! The stages of the command `run` before it writes.

ghost use Rattle.std.specs.Prelude.{◌≡◌, ◌≤◌, List, ℕ, IfOk, IfErr, IsErrOf};
ghost use Rattle.std.specs.declared.option.Option.{Option};
ghost use Rattle.wdf_io.specs.Causes.{Rose};
ghost use Rattle.wdf_stages.specs.declared.netlist_stop.NetlistStop.TheVariants as netlists;
ghost use Rattle.wdf_stages.specs.declared.open_stop.OpenStop.TheVariants as opens;
ghost use Rattle.wdf_words.specs.Orders.{HasRanges, IsFileNamed, texts};
ghost use Rattle.wdf.specs.RunAnswer.{BeginningStops, HasBegun};
ghost use Rattle.wdf.specs.World.{world};

use crate::designing::design_words;
use crate::keeping::run_laws;
use crate::{BeginningStop, Begun, Designed, NetworksStop};
use std::alloc::Global;
use wdf_frames::WaveRun;
use wdf_io::{Shelf, Source};
use wdf_reporting::report;
use wdf_stages::{bound_words, open_wave};
use wdf_words::Order;

/// The run of the wave on the input by the networks of the netlist that the words name, its head read
/// and its report made. No later stage takes memory.
///
/// # Errors
///
/// Those of [`design_words`], [`open_wave`] and [`bound_words`], and `NoMemory`, in this order.
pub fn begin_words<H: Shelf, I: Source>(
    alloc: Global,
    words: &[String],
    order: &Order,
    shelf: &mut H,
    input: &mut I,
) -> Result<Begun, BeginningStop>
    requires ranges { HasRanges order.now }
    requires named { IsFileNamed (texts words.now) order.now.net }
    // Whatever becomes of the input, the output and the note behind it.
    ensures begun { (left' written written' noted noted' : Option (List ℕ)) → IfOk result
        (HasBegun (world (texts words.now) (H.files shelf.old) (I.left input.old) left' written written' noted noted') order.now (I.left input.new)) }
    // Whatever they are: they are not written.
    ensures refused { (written noted : Option (List ℕ)) → IfErr result
        (BeginningStops (world (texts words.now) (H.files shelf.old) (I.left input.old) (I.left input.new) written written noted noted) order.now) }
    ensures load_fault { IsErrOf result (BeginningStop.Networks (NetworksStop.Netlist netlists.LoadFault)) → Rose (H.faults shelf.old) (H.faults shelf.new) }
    ensures head_fault { IsErrOf result (BeginningStop.Open opens.ReadFault) → Rose (I.faults input.old) (I.faults input.new) }
    ensures later { I.faults input.old ≤ I.faults input.new }
{
    let Designed { netlist, networks } = design_words(alloc, words, order, shelf)?;
    let head = open_wave(input, &netlist, order.frames)?;
    let plan = order.plan(head.bits as u8);
    let bounds = bound_words(alloc, &netlist, &networks, &plan)?;
    run_laws(&networks, &plan, &head);
    let text = report(alloc, &netlist, &networks, &plan, &bounds)?;
    let wave_run = WaveRun::new(alloc, networks, &plan, &head)?;
    Ok(Begun {
        report: text,
        frames: head.frames,
        wave_run,
    })
}
