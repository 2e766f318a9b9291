//! The top call.

ghost use Rattle.std.specs.Prelude.{◌≡◌, ◌≢◌, ◌≤◌, OnOk, IfErr, IsErrOf};
ghost use Rattle.wdf_io.specs.Causes.{Rose};
ghost use Rattle.wdf_report.specs.FaultLine.{fault_line_of};
ghost use Rattle.wdf_stages.specs.Noting.{GainsLine};
ghost use Rattle.wdf_words.specs.Orders.{HasRanges, NamesFiles, texts};
ghost use Rattle.wdf.specs.Answer.{DoesOrder, IsDone, IsRefused, Refuses, RefusesOrder};
ghost use Rattle.wdf.specs.Complete.{HasAll};
ghost use Rattle.wdf.specs.Filtered.{AsksRun, HasRun};
ghost use Rattle.wdf.specs.Runs.{KeepCertified, KeepEnergy, KeepKirchhoff, KeepWords};
ghost use Rattle.wdf.specs.World.{world};

use crate::commands::{do_certify, do_check, do_report, do_run, do_soak};
use crate::laws::completeness;
use crate::statuses::usage_status;
use std::alloc::Global;
use wdf_io::{Shelf, Sink, Source};
use wdf_report::{Status, fault_line};
use wdf_stages::note_line;
use wdf_words::{Command, Order, read_words};

// Does what the words, which mean this order, ask for.
fn perform<H: Shelf, I: Source, O: Sink, N: Sink>(
    alloc: Global,
    words: &[String],
    order: &Order,
    shelf: &mut H,
    input: &mut I,
    out: &mut O,
    note: &mut N,
) -> Result<(), Status>
    requires ranges { HasRanges order.now }
    requires files { NamesFiles (texts words.now) order.now }
    ensures done { OnOk result
        (DoesOrder order.now.command (world (texts words.now) (H.files shelf.old) (I.left input.old) (I.left input.new) (O.written out.old) (O.written out.new) (N.written note.old) (N.written note.new)) order.now) }
    ensures refused { IfErr result
        (RefusesOrder order.now.command (world (texts words.now) (H.files shelf.old) (I.left input.old) (I.left input.new) (O.written out.old) (O.written out.new) (N.written note.old) (N.written note.new)) order.now) }
    // Nothing but a note that failed is left on the note.
    ensures quiet { IfErr result (λ status. status ≢ Status.NoteFault → note.new ≡ note.old) }
    ensures later { N.faults note.old ≤ N.faults note.new }
    ensures load_fault { IsErrOf result Status.LoadFault → Rose (H.faults shelf.old) (H.faults shelf.new) }
    ensures read_fault { IsErrOf result Status.ReadFault → Rose (I.faults input.old) (I.faults input.new) }
    ensures write_fault { IsErrOf result Status.WriteFault → Rose (O.faults out.old) (O.faults out.new) }
    ensures note_fault { IsErrOf result Status.NoteFault → Rose (N.faults note.old) (N.faults note.new) }
{
    match order.command {
        Command::Run => do_run(alloc, words, order, shelf, input, out, note),
        Command::Certify => do_certify(alloc, words, order, shelf, out),
        Command::Check => do_check(alloc, words, order, shelf, out),
        Command::Report => do_report(alloc, words, order, shelf, out),
        Command::Soak => do_soak(alloc, order, out),
    }
}

// Does what the words ask for.
fn attempt<H: Shelf, I: Source, O: Sink, N: Sink>(
    alloc: Global,
    words: &[String],
    shelf: &mut H,
    input: &mut I,
    out: &mut O,
    note: &mut N,
) -> Result<(), Status>
    ensures done { OnOk result
        (IsDone (world (texts words.now) (H.files shelf.old) (I.left input.old) (I.left input.new) (O.written out.old) (O.written out.new) (N.written note.old) (N.written note.new))) }
    ensures refused { IfErr result
        (Refuses (world (texts words.now) (H.files shelf.old) (I.left input.old) (I.left input.new) (O.written out.old) (O.written out.new) (N.written note.old) (N.written note.new))) }
    // Nothing but a note that failed is left on the note.
    ensures quiet { IfErr result (λ status. status ≢ Status.NoteFault → note.new ≡ note.old) }
    ensures later { N.faults note.old ≤ N.faults note.new }
    ensures load_fault { IsErrOf result Status.LoadFault → Rose (H.faults shelf.old) (H.faults shelf.new) }
    ensures read_fault { IsErrOf result Status.ReadFault → Rose (I.faults input.old) (I.faults input.new) }
    ensures write_fault { IsErrOf result Status.WriteFault → Rose (O.faults out.old) (O.faults out.new) }
    ensures note_fault { IsErrOf result Status.NoteFault → Rose (N.faults note.old) (N.faults note.new) }
{
    match read_words(words) {
        Ok(order) => perform(alloc, words, &order, shelf, input, out, note),
        Err(fault) => Err(usage_status(fault)),
    }
}

/// Does what the words of the command line ask for. `docs/command.md` has the commands and their
/// operands, and `docs/report.md` the answers.
///
/// `run net=FILE` filters the wave on `input` by the wave digital filter of a netlist on the shelf,
/// and writes the wave of its load to `out`; on `note` it tells the report of the netlist, what was
/// limited and where the energy went. `report net=FILE` writes what the netlist becomes,
/// `certify net=FILE` the certificates of its networks, and `check net=FILE cert=FILE` writes `accepted`
/// where a file's certificates certify them. `soak seed=N order=K frames=M` writes the summary of a run on
/// a ladder and a wave that it makes. These four leave the input as it is.
///
/// Every answer other than `Done` tries its fault line on the note.
#[tactic(auto, using(crate::proofs::DoneLemmas::kept_kirchhoff, crate::proofs::DoneLemmas::kept_energy, crate::proofs::DoneLemmas::kept_words, crate::proofs::DoneLemmas::kept_certified))]
pub fn run<H: Shelf, I: Source, O: Sink, N: Sink>(
    alloc: Global,
    words: &[String],
    shelf: &mut H,
    input: &mut I,
    out: &mut O,
    note: &mut N,
) -> Status
    // What stands in the output and on the note when all was done.
    ensures done_writes_the_load_waves { result ≡ Status.Done
        → IsDone (world (texts words.now) (H.files shelf.old) (I.left input.old) (I.left input.new) (O.written out.old) (O.written out.new) (N.written note.old) (N.written note.new)) }

    // In every frame of every run that it made, Kirchhoff's laws hold at every junction, between the
    // values before they are truncated, and each element obeys its own law.
    ensures kirchhoff { result ≡ Status.Done → AsksRun (texts words.now)
        → HasRun (world (texts words.now) (H.files shelf.old) (I.left input.old) (I.left input.new) (O.written out.old) (O.written out.new) (N.written note.old) (N.written note.new)) (λ s body certified. KeepKirchhoff s body) }

    // After each frame, the energy that is stored and was absorbed is at most what the sources sent in.
    ensures energy { result ≡ Status.Done → AsksRun (texts words.now)
        → HasRun (world (texts words.now) (H.files shelf.old) (I.left input.old) (I.left input.new) (O.written out.old) (O.written out.new) (N.written note.old) (N.written note.new)) (λ s body certified. KeepEnergy s body) }

    // Every word of every frame is within its port's bound, which the plan's words hold.
    ensures words { result ≡ Status.Done → AsksRun (texts words.now)
        → HasRun (world (texts words.now) (H.files shelf.old) (I.left input.old) (I.left input.new) (O.written out.old) (O.written out.new) (N.written note.old) (N.written note.new)) (λ s body certified. KeepWords s body) }

    // Where the note tells that a network is certified, no state of it within the plan's words comes
    // back without input, but rest.
    ensures certified { result ≡ Status.Done → AsksRun (texts words.now)
        → HasRun (world (texts words.now) (H.files shelf.old) (I.left input.old) (I.left input.new) (O.written out.old) (O.written out.new) (N.written note.old) (N.written note.new)) (λ s body certified. KeepCertified s certified) }

    // Every other answer has its cause, and what was read, written and noted then.
    ensures refused { result ≢ Status.Done
        → IsRefused (world (texts words.now) (H.files shelf.old) (I.left input.old) (I.left input.new) (O.written out.old) (O.written out.new) (N.written note.old)) (N.written note.new) (N.faults note.old) (N.faults note.new) result }

    // The note gains the fault line of just this answer, or a front of it where its count rose; behind a
    // front of the note of a run where that could not be written.
    ensures fault_line { result ≢ Status.Done → result ≢ Status.NoteFault
        → GainsLine (N.written note.old) (N.written note.new) (N.faults note.old) (N.faults note.new) (fault_line_of result) }

    // A fault is answered only where the count of that object rose.
    ensures load_fault { result ≡ Status.LoadFault → Rose (H.faults shelf.old) (H.faults shelf.new) }
    ensures read_fault { result ≡ Status.ReadFault → Rose (I.faults input.old) (I.faults input.new) }
    ensures write_fault { result ≡ Status.WriteFault → Rose (O.faults out.old) (O.faults out.new) }
    ensures note_fault { result ≡ Status.NoteFault → Rose (N.faults note.old) (N.faults note.new) }

    // Where all is there that the words ask for and no count rose, only want of memory is in the way.
    ensures complete { HasAll (texts words.now) (H.files shelf.old) (I.left input.old)
        → (Rose (H.faults shelf.old) (H.faults shelf.new) → ⊥) → (Rose (I.faults input.old) (I.faults input.new) → ⊥) → (Rose (O.faults out.old) (O.faults out.new) → ⊥) → (Rose (N.faults note.old) (N.faults note.new) → ⊥)
        → result ≢ Status.Done → result ≡ Status.NoMemory }
{
    completeness();
    match attempt(alloc, words, shelf, input, out, note) {
        Ok(()) => Status::Done,
        Err(status) => {
            note_line(note, fault_line(&status).as_bytes());
            status
        }
    }
}
