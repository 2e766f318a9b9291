//! The answers of the commands.

ghost use Rattle.std.specs.Prelude.{◌≡◌, ◌≢◌, ◌≤◌, List, ℕ, OnOk, IfErr, IsErrOf};
ghost use Rattle.std.specs.declared.option.Option.{Option};
ghost use Rattle.wdf_io.specs.Causes.{Rose};
ghost use Rattle.wdf_io.specs.Files.{Files};
ghost use Rattle.wdf_words.specs.Orders.{HasRanges, IsFileNamed, texts};
ghost use Rattle.wdf.specs.CertifyAnswer.{DoneCertify, RefusesCertify};
ghost use Rattle.wdf.specs.CheckAnswer.{DoneCheck, RefusesCheck};
ghost use Rattle.wdf.specs.ReportAnswer.{DoneReport, RefusesReport};
ghost use Rattle.wdf.specs.RunAnswer.{DoneRun, RefusesRun};
ghost use Rattle.wdf.specs.SoakAnswer.{DoneSoak, RefusesSoak};
ghost use Rattle.wdf.specs.World.{world};

use crate::certifying::certify_words;
use crate::checking::check_words;
use crate::filtering::filter_words;
use crate::reporting::report_words;
use crate::soaking::soak_order;
use std::alloc::Global;
use wdf_io::{Shelf, Sink, Source};
use wdf_report::Status;
use wdf_words::{Command, Order};

/// Does the command `run`.
pub fn do_run<H: Shelf, I: Source, O: Sink, N: Sink>(
    alloc: Global,
    words: &[String],
    order: &Order,
    shelf: &mut H,
    input: &mut I,
    out: &mut O,
    note: &mut N,
) -> Result<(), Status>
    requires ranges { HasRanges order.now }
    requires named { IsFileNamed (texts words.now) order.now.net }
    ensures done { OnOk result
        (DoneRun (world (texts words.now) (H.files shelf.old) (I.left input.old) (I.left input.new) (O.written out.old) (O.written out.new) (N.written note.old) (N.written note.new)) order.now) }
    ensures refused { IfErr result
        (RefusesRun (world (texts words.now) (H.files shelf.old) (I.left input.old) (I.left input.new) (O.written out.old) (O.written out.new) (N.written note.old) (N.written note.new)) order.now) }
    ensures quiet { IfErr result (λ status. status ≢ Status.NoteFault → note.new ≡ note.old) }
    ensures later { N.faults note.old ≤ N.faults note.new }
    ensures load_fault { IsErrOf result Status.LoadFault → Rose (H.faults shelf.old) (H.faults shelf.new) }
    ensures read_fault { IsErrOf result Status.ReadFault → Rose (I.faults input.old) (I.faults input.new) }
    ensures write_fault { IsErrOf result Status.WriteFault → Rose (O.faults out.old) (O.faults out.new) }
    ensures note_fault { IsErrOf result Status.NoteFault → Rose (N.faults note.old) (N.faults note.new) }
{
    match filter_words(alloc, words, order, shelf, input, out, note) {
        Ok(()) => Ok(()),
        Err(stop) => Err(Status::from(stop)),
    }
}

/// Does the command `report`.
pub fn do_report<H: Shelf, O: Sink>(
    alloc: Global,
    words: &[String],
    order: &Order,
    shelf: &mut H,
    out: &mut O,
) -> Result<(), Status>
    requires ranges { HasRanges order.now }
    requires named { IsFileNamed (texts words.now) order.now.net }
    ensures done { (left noted : Option (List ℕ)) → OnOk result
        (DoneReport (world (texts words.now) (H.files shelf.old) left left (O.written out.old) (O.written out.new) noted noted) order.now) }
    ensures refused { (left noted : Option (List ℕ)) → IfErr result
        (RefusesReport (world (texts words.now) (H.files shelf.old) left left (O.written out.old) (O.written out.new) noted noted) order.now) }
    ensures load_fault { IsErrOf result Status.LoadFault → Rose (H.faults shelf.old) (H.faults shelf.new) }
    ensures write_fault { IsErrOf result Status.WriteFault → Rose (O.faults out.old) (O.faults out.new) }
{
    match report_words(alloc, words, order, shelf, out) {
        Ok(()) => Ok(()),
        Err(stop) => Err(Status::from(stop)),
    }
}

/// Does the command `certify`.
pub fn do_certify<H: Shelf, O: Sink>(
    alloc: Global,
    words: &[String],
    order: &Order,
    shelf: &mut H,
    out: &mut O,
) -> Result<(), Status>
    requires ranges { HasRanges order.now }
    requires named { IsFileNamed (texts words.now) order.now.net }
    ensures done { (left noted : Option (List ℕ)) → OnOk result
        (DoneCertify (world (texts words.now) (H.files shelf.old) left left (O.written out.old) (O.written out.new) noted noted) order.now) }
    ensures refused { (left noted : Option (List ℕ)) → IfErr result
        (RefusesCertify (world (texts words.now) (H.files shelf.old) left left (O.written out.old) (O.written out.new) noted noted) order.now) }
    ensures load_fault { IsErrOf result Status.LoadFault → Rose (H.faults shelf.old) (H.faults shelf.new) }
    ensures write_fault { IsErrOf result Status.WriteFault → Rose (O.faults out.old) (O.faults out.new) }
{
    match certify_words(alloc, words, order, shelf, out) {
        Ok(()) => Ok(()),
        Err(stop) => Err(Status::from(stop)),
    }
}

/// Does the command `check`.
pub fn do_check<H: Shelf, O: Sink>(
    alloc: Global,
    words: &[String],
    order: &Order,
    shelf: &mut H,
    out: &mut O,
) -> Result<(), Status>
    requires ranges { HasRanges order.now }
    requires named { IsFileNamed (texts words.now) order.now.net }
    requires cert_named { IsFileNamed (texts words.now) order.now.cert }
    ensures done { (left noted : Option (List ℕ)) → OnOk result
        (DoneCheck (world (texts words.now) (H.files shelf.old) left left (O.written out.old) (O.written out.new) noted noted) order.now) }
    ensures refused { (left noted : Option (List ℕ)) → IfErr result
        (RefusesCheck (world (texts words.now) (H.files shelf.old) left left (O.written out.old) (O.written out.new) noted noted) order.now) }
    ensures load_fault { IsErrOf result Status.LoadFault → Rose (H.faults shelf.old) (H.faults shelf.new) }
    ensures write_fault { IsErrOf result Status.WriteFault → Rose (O.faults out.old) (O.faults out.new) }
{
    match check_words(alloc, words, order, shelf, out) {
        Ok(()) => Ok(()),
        Err(stop) => Err(Status::from(stop)),
    }
}

/// Does the command `soak`.
pub fn do_soak<O: Sink>(alloc: Global, order: &Order, out: &mut O) -> Result<(), Status>
    requires ranges { HasRanges order.now }
    requires asked { order.now.command ≡ Command.Soak }
    ensures done { (words : List (List ℕ)) (files : Option Files) (left noted : Option (List ℕ)) → OnOk result
        (DoneSoak (world words files left left (O.written out.old) (O.written out.new) noted noted) order.now) }
    ensures refused { (words : List (List ℕ)) (files : Option Files) (left noted : Option (List ℕ)) → IfErr result
        (RefusesSoak (world words files left left (O.written out.old) (O.written out.new) noted noted) order.now) }
    ensures write_fault { IsErrOf result Status.WriteFault → Rose (O.faults out.old) (O.faults out.new) }
{
    match soak_order(alloc, order, out) {
        Ok(()) => Ok(()),
        Err(stop) => Err(Status::from(stop)),
    }
}
