//! The command `certify`.

ghost use Rattle.std.specs.Prelude.{◌≡◌, ◌≤◌, List, ℕ, OnOk, IfErr, IsErrOf};
ghost use Rattle.std.specs.declared.option.Option.{Option};
ghost use Rattle.wdf_io.specs.Causes.{Rose};
ghost use Rattle.wdf_stages.specs.declared.netlist_stop.NetlistStop.TheVariants as netlists;
ghost use Rattle.wdf_words.specs.Orders.{HasRanges, IsFileNamed, texts};
ghost use Rattle.wdf.specs.CertifyAnswer.{CertifyStops, DoneCertify};
ghost use Rattle.wdf.specs.World.{world};

use crate::designing::design_words;
use crate::{CertifyingStop, NetworksStop};
use std::alloc::Global;
use wdf_certificates::certify;
use wdf_io::{Shelf, Sink, put_all};
use wdf_words::Order;

/// Writes the certificates of the networks of the netlist that the words name.
///
/// # Errors
///
/// Those of [`design_words`] and [`certify`]; `Write` only where the output's count of faults rose.
pub fn certify_words<H: Shelf, O: Sink>(
    alloc: Global,
    words: &[String],
    order: &Order,
    shelf: &mut H,
    out: &mut O,
) -> Result<(), CertifyingStop>
    requires ranges { HasRanges order.now }
    requires named { IsFileNamed (texts words.now) order.now.net }
    // Whatever the input and the note are: the one is not read, the other not written.
    ensures done { (left noted : Option (List ℕ)) → OnOk result
        (DoneCertify (world (texts words.now) (H.files shelf.old) left left (O.written out.old) (O.written out.new) noted noted) order.now) }
    ensures refused { (left noted : Option (List ℕ)) → IfErr result
        (CertifyStops (world (texts words.now) (H.files shelf.old) left left (O.written out.old) (O.written out.new) noted noted) order.now) }
    ensures load_fault { IsErrOf result (CertifyingStop.Networks (NetworksStop.Netlist netlists.LoadFault)) → Rose (H.faults shelf.old) (H.faults shelf.new) }
    ensures write_fault { IsErrOf result CertifyingStop.Write → Rose (O.faults out.old) (O.faults out.new) }
{
    let design = design_words(alloc, words, order, shelf)?;
    let text = certify(alloc, &design.netlist, &design.networks)?;
    put_all(out, &text)?;
    Ok(())
}
