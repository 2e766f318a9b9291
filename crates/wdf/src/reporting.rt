//! The command `report`.

ghost use Rattle.std.specs.Prelude.{◌≡◌, ◌≤◌, List, ℕ, OnOk, IfErr, IsErrOf};
ghost use Rattle.std.specs.declared.option.Option.{Option};
ghost use Rattle.wdf_io.specs.Causes.{Rose};
ghost use Rattle.wdf_stages.specs.declared.netlist_stop.NetlistStop.TheVariants as netlists;
ghost use Rattle.wdf_words.specs.Orders.{HasRanges, IsFileNamed, texts};
ghost use Rattle.wdf.specs.ReportAnswer.{DoneReport, ReportStops};
ghost use Rattle.wdf.specs.World.{world};

use crate::designing::design_words;
use crate::{Designed, NetworksStop, ReportingStop};
use std::alloc::Global;
use wdf_io::{Shelf, Sink, put_all};
use wdf_reporting::report;
use wdf_stages::bound_words;
use wdf_words::Order;

/// Writes the report of the netlist that the words name, under the plan that they say.
///
/// # Errors
///
/// Those of [`design_words`] and [`bound_words`], `NoMemory`, and `Write`, in this order; `Write` only
/// where the output's count of faults rose.
pub fn report_words<H: Shelf, O: Sink>(
    alloc: Global,
    words: &[String],
    order: &Order,
    shelf: &mut H,
    out: &mut O,
) -> Result<(), ReportingStop>
    requires ranges { HasRanges order.now }
    requires named { IsFileNamed (texts words.now) order.now.net }
    // Whatever the input and the note are: the one is not read, the other not written.
    ensures done { (left noted : Option (List ℕ)) → OnOk result
        (DoneReport (world (texts words.now) (H.files shelf.old) left left (O.written out.old) (O.written out.new) noted noted) order.now) }
    ensures refused { (left noted : Option (List ℕ)) → IfErr result
        (ReportStops (world (texts words.now) (H.files shelf.old) left left (O.written out.old) (O.written out.new) noted noted) order.now) }
    ensures load_fault { IsErrOf result (ReportingStop.Networks (NetworksStop.Netlist netlists.LoadFault)) → Rose (H.faults shelf.old) (H.faults shelf.new) }
    ensures write_fault { IsErrOf result ReportingStop.Write → Rose (O.faults out.old) (O.faults out.new) }
{
    let Designed { netlist, networks } = design_words(alloc, words, order, shelf)?;
    let plan = order.plan(order.bits);
    let bounds = bound_words(alloc, &netlist, &networks, &plan)?;
    let text = report(alloc, &netlist, &networks, &plan, &bounds)?;
    put_all(out, &text)?;
    Ok(())
}
