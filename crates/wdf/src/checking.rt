//! The command `check`.

ghost use Rattle.std.specs.Prelude.{◌≡◌, ◌≤◌, List, ℕ, IfOk, OnOk, IfErr, IsErrOf};
ghost use Rattle.std.specs.declared.option.Option.{Option};
ghost use Rattle.wdf_io.specs.Causes.{Rose};
ghost use Rattle.wdf_stages.specs.declared.netlist_stop.NetlistStop.TheVariants as netlists;
ghost use Rattle.wdf_certificates.specs.declared.load_stop.LoadStop.TheVariants as loads;
ghost use Rattle.wdf_words.specs.Orders.{HasRanges, IsFileNamed, texts};
ghost use Rattle.wdf_certificates.specs.CertLoading.{LoadsCerts, LoadRefuses};
ghost use Rattle.wdf.specs.NetworksAnswer.{name_of, word_of};
ghost use Rattle.wdf.specs.CheckAnswer.{CheckStops, DoneCheck};
ghost use Rattle.wdf.specs.World.{world};

use crate::designing::{design_words, file_word};
use crate::{CheckingStop, NetworksStop};
use std::alloc::Global;
use wdf_cert::Certs;
use wdf_certificates::{LoadStop, check_certs, load_certs};
use wdf_io::{Shelf, Sink, put_all};
use wdf_words::{Order, file_name};

// The certificates of the file that the words name.
fn load_words<H: Shelf>(
    alloc: Global,
    words: &[String],
    order: &Order,
    shelf: &mut H,
) -> Result<Certs, LoadStop>
    requires { IsFileNamed (texts words.now) order.now.cert }
    ensures loads { IfOk result (LoadsCerts (H.files shelf.old) (name_of (texts words.now) order.now.cert)) }
    ensures refused { IfErr result (LoadRefuses (H.files shelf.old) (word_of order.now.cert) (name_of (texts words.now) order.now.cert)) }
    ensures later { H.faults shelf.old ≤ H.faults shelf.new }
    ensures load_fault { IsErrOf result LoadStop.LoadFault → Rose (H.faults shelf.old) (H.faults shelf.new) }
{
    let word = file_word(words, order.cert);
    load_certs(alloc, shelf, word, file_name(words, word))
}

/// Checks the certificates of the file that the words name against the networks of the netlist that
/// they name, and writes `accepted`.
///
/// # Errors
///
/// Those of [`design_words`], [`load_certs`] and [`check_certs`]; `Write` only where the output's count
/// of faults rose.
pub fn check_words<H: Shelf, O: Sink>(
    alloc: Global,
    words: &[String],
    order: &Order,
    shelf: &mut H,
    out: &mut O,
) -> Result<(), CheckingStop>
    requires ranges { HasRanges order.now }
    requires named { IsFileNamed (texts words.now) order.now.net }
    requires cert_named { IsFileNamed (texts words.now) order.now.cert }
    // Whatever the input and the note are: the one is not read, the other not written.
    ensures done { (left noted : Option (List ℕ)) → OnOk result
        (DoneCheck (world (texts words.now) (H.files shelf.old) left left (O.written out.old) (O.written out.new) noted noted) order.now) }
    ensures refused { (left noted : Option (List ℕ)) → IfErr result
        (CheckStops (world (texts words.now) (H.files shelf.old) left left (O.written out.old) (O.written out.new) noted noted) order.now) }
    ensures load_fault { IsErrOf result (CheckingStop.Networks (NetworksStop.Netlist netlists.LoadFault)) → Rose (H.faults shelf.old) (H.faults shelf.new) }
    ensures cert_fault { IsErrOf result (CheckingStop.Load loads.LoadFault) → Rose (H.faults shelf.old) (H.faults shelf.new) }
    ensures write_fault { IsErrOf result CheckingStop.Write → Rose (O.faults out.old) (O.faults out.new) }
{
    let design = design_words(alloc, words, order, shelf)?;
    let certs = load_words(alloc, words, order, shelf)?;
    check_certs(alloc, &design.networks, &certs)?;
    put_all(out, b"accepted\n")?;
    Ok(())
}
