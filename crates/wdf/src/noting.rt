//! The note of a run that was done.

ghost use Rattle.std.specs.Prelude.{◌≡◌, OnOk, OnErr};
ghost use Rattle.std.specs.Io.KnownBytes.{Appends};
ghost use Rattle.wdf_io.specs.Causes.{HasCause};
ghost use Rattle.wdf_io.specs.Moved.{AppendsPart};
ghost use Rattle.wdf_frames.specs.RunStates.{setting_of, totals_by};
ghost use Rattle.wdf_frames.specs.Setting.{runs_of};
ghost use Rattle.wdf_reporting.specs.LedgerLine.{ledger_text};
ghost use Rattle.wdf_reporting.specs.Notes.{side_ledger};
ghost use Rattle.wdf.specs.RunNote.{ledger_by, told_by, told_totals};

use wdf_energy::Totals;
use wdf_frames::WaveRun;
use wdf_io::{Failed, Sink, put_all};
use wdf_lattice::Networks;
use wdf_law::Side;
use wdf_reporting::{count_lines, ledger_line};
use wdf_text::Line;

/// The totals of no frames.
const NO_TOTALS: Totals = Totals {
    incident: 0,
    absorbed: 0,
    stored: 0,
};

// The ledger's line of one run of a side's network.
fn line_of(wave_run: &WaveRun, side: Side, run: usize) -> Line
    ensures { result ≡ ledger_text side run (told_totals (totals_by wave_run.now) side run) }
{
    let totals = wave_run.totals(side, run).unwrap_or(NO_TOTALS);
    ledger_line(side, run, &totals)
}

// Writes it.
fn put_line<N: Sink>(note: &mut N, wave_run: &WaveRun, side: Side, run: usize) -> Result<(), Failed>
    ensures whole { OnOk result (Appends (N.written note.old) (N.written note.new) (ledger_text side run (told_totals (totals_by wave_run.now) side run))) }
    ensures part { OnErr result (AppendsPart (N.written note.old) (N.written note.new) (ledger_text side run (told_totals (totals_by wave_run.now) side run))) }
    ensures cause { HasCause (N.faults note.old) (N.faults note.new) result }
{
    put_all(note, line_of(wave_run, side, run).as_bytes())
}

// Writes those of all its runs.
fn put_side<N: Sink>(note: &mut N, wave_run: &WaveRun, side: Side) -> Result<(), Failed>
    ensures whole { OnOk result (Appends (N.written note.old) (N.written note.new) (side_ledger side (runs_of (setting_of wave_run.now)) (told_totals (totals_by wave_run.now) side))) }
    ensures part { OnErr result (AppendsPart (N.written note.old) (N.written note.new) (side_ledger side (runs_of (setting_of wave_run.now)) (told_totals (totals_by wave_run.now) side))) }
    ensures cause { HasCause (N.faults note.old) (N.faults note.new) result }
{
    for run in 0..wave_run.runs() {
        put_line(note, wave_run, side, run)?;
    }
    Ok(())
}

// Writes those of all networks.
fn put_ledger<N: Sink>(note: &mut N, wave_run: &WaveRun) -> Result<(), Failed>
    ensures whole { OnOk result (Appends (N.written note.old) (N.written note.new) (ledger_by wave_run.now)) }
    ensures part { OnErr result (AppendsPart (N.written note.old) (N.written note.new) (ledger_by wave_run.now)) }
    ensures cause { HasCause (N.faults note.old) (N.faults note.new) result }
{
    match wave_run.networks() {
        Networks::Ladder(_) => put_side(note, wave_run, Side::Whole),
        Networks::Lattice { .. } => {
            put_side(note, wave_run, Side::A)?;
            put_side(note, wave_run, Side::B)
        }
    }
}

/// Writes on the note what a run tells: the report, the counts of its frames and of the output samples
/// that were limited, and the ledger's lines.
///
/// # Errors
///
/// `Failed` only where the note's count of faults rose. A part of that text was then written from its
/// front on, and not all of it.
pub fn put_note<N: Sink>(
    note: &mut N,
    report: &[u8],
    frames: u32,
    wave_run: &WaveRun,
) -> Result<(), Failed>
    ensures whole { OnOk result (Appends (N.written note.old) (N.written note.new) (told_by report.now frames wave_run.now)) }
    ensures part { OnErr result (AppendsPart (N.written note.old) (N.written note.new) (told_by report.now frames wave_run.now)) }
    ensures cause { HasCause (N.faults note.old) (N.faults note.new) result }
{
    put_all(note, report)?;
    put_all(note, count_lines(frames, wave_run.limited()).as_bytes())?;
    put_ledger(note, wave_run)
}
