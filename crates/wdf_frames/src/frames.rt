// The frames of a run: each block is read, run and written before the next.
ghost use Rattle.std.specs.Prelude.{◌≡◌, ◌+◌, ◌-◌, ◌*◌, ◌<◌, ◌≤◌, ◌^◌, length, vec_len, IfOk, OnOk, IfErr, OnErr, IsErrOf};
ghost use Rattle.std.specs.Io.KnownBytes.{Appends, IsAtEnd};
ghost use Rattle.wdf_io.specs.Causes.{HasCause, Rose};
ghost use Rattle.wdf_io.specs.Moved.{AppendsPart, ConsumesAtMost};
ghost use Rattle.wdf_wav.specs.FrameBlock.{ReadsFrames};
ghost use Rattle.wdf_lattice.specs.Runners.{totals_by};
ghost use Rattle.wdf_wav.specs.Header.{data_size};
ghost use Rattle.wdf_frames.specs.Setting.{read_size, write_size, written_head};
ghost use Rattle.wdf_frames.specs.RunFacts.{TellsRun};
ghost use Rattle.wdf_frames.specs.WaveRuns.{WritesWave};
ghost use Rattle.wdf_frames.specs.Stops.{FrameStops};
ghost use Rattle.wdf_frames.specs.Progress.{IsBegunRound, BlockStops, RanSoFar, WritesBlock, WritesFrames, WriteStops, next_count, round_setting};

use crate::FrameStop;
use crate::round::{BLOCK, Round};
use wdf_io::{Sink, Source, put_all};
use wdf_wav::{head_bytes, read_block};

/// Writes all of a piece of the output.
pub(crate) fn put<O: Sink>(out: &mut O, piece: &[u8]) -> Result<(), FrameStop>
    ensures ok { OnOk result (Appends (O.written out.old) (O.written out.new) piece.now) }
    ensures part { OnErr result (AppendsPart (O.written out.old) (O.written out.new) piece.now) }
    ensures stop { IfErr result (λ e. e ≡ FrameStop.WriteFault) }
    ensures cause { HasCause (O.faults out.old) (O.faults out.new) result }
{
    match put_all(out, piece) {
        Ok(()) => Ok(()),
        Err(_) => Err(FrameStop::WriteFault),
    }
}

// Fills `frames` from the input, and says how many of them are whole.
fn read_frames<I: Source>(
    input: &mut I,
    round: &Round,
    count: usize,
    frames: &mut [u8],
) -> Result<usize, FrameStop>
    requires frames { length frames.old ≡ count * read_size (round_setting round.now) }
    ensures most { IfOk result (λ n. n ≤ count) }
    ensures bytes { IfOk result (λ n. ReadsFrames (I.left input.old) (I.left input.new) (read_size (round_setting round.now)) n frames.new) }
    ensures end { IfOk result (λ n. n < count → IsAtEnd (I.left input.new)) }
    ensures taken { OnErr result (ConsumesAtMost (I.left input.old) (I.left input.new) (length frames.old)) }
    ensures stop { IfErr result (λ e. e ≡ FrameStop.ReadFault) }
    ensures cause { HasCause (I.faults input.old) (I.faults input.new) result }
{
    let _ = count;
    match read_block(input, &round.head(), frames) {
        Ok(held) => Ok(held),
        Err(_) => Err(FrameStop::ReadFault),
    }
}

// Runs `count` frames, and writes the data of those in front of the first sample over amp.
fn write_front<O: Sink>(
    round: &mut Round,
    count: usize,
    frames: &[u8],
    made: &mut [u8],
    out: &mut O,
) -> Result<(), FrameStop>
    requires few { count ≤ 4096 }
    requires frames { length frames.now ≡ count * read_size (round_setting round.old) }
    requires made { length made.old ≡ count * write_size (round_setting round.old) }
    requires left { round.old.runner.done + count ≤ round.old.runner.plan.frames }
    ensures ok { OnOk result (WritesFrames (round_setting round.old) round.old round.new count frames.now (O.written out.old) (O.written out.new)) }
    ensures stopped { IfErr result (WriteStops (round_setting round.old) round.old round.new count frames.now (O.written out.old) (O.written out.new)) }
    ensures set { round_setting round.new ≡ round_setting round.old }
    ensures later { O.faults out.old ≤ O.faults out.new }
    ensures write { IsErrOf result FrameStop.WriteFault → Rose (O.faults out.old) (O.faults out.new) }
{
    round.rules();
    let over = round.run(count, frames, made);
    let size = round.write_size();
    match over {
        None => put(out, &made[..count * size]),
        Some(over) => {
            put(out, &made[..over.frame * size])?;
            Err(FrameStop::Amplitude {
                frame: round.done(),
                channel: over.channel,
                sample: over.sample,
            })
        }
    }
}

// Reads, runs and writes a block of `count` frames.
fn filter_block<I: Source, O: Sink>(
    round: &mut Round,
    count: usize,
    frames: &mut [u8],
    made: &mut [u8],
    input: &mut I,
    out: &mut O,
) -> Result<(), FrameStop>
    requires few { count ≤ 4096 }
    requires frames { length frames.old ≡ count * read_size (round_setting round.old) }
    requires made { length made.old ≡ count * write_size (round_setting round.old) }
    requires left { round.old.runner.done + count ≤ round.old.runner.plan.frames }
    ensures ok { OnOk result (WritesBlock (round_setting round.old) round.old round.new count (I.left input.old) (I.left input.new) (O.written out.old) (O.written out.new)) }
    ensures stopped { IfErr result (BlockStops (round_setting round.old) round.old round.new count (I.left input.old) (I.left input.new) (O.written out.old) (O.written out.new)) }
    ensures set { round_setting round.new ≡ round_setting round.old }
    ensures later { (I.faults input.old ≤ I.faults input.new) × (O.faults out.old ≤ O.faults out.new) }
    ensures read { IsErrOf result FrameStop.ReadFault → Rose (I.faults input.old) (I.faults input.new) }
    ensures write { IsErrOf result FrameStop.WriteFault → Rose (O.faults out.old) (O.faults out.new) }
{
    let held = read_frames(input, round, count, frames)?;
    let whole = &frames[..held * round.read_size()];
    let room = held * round.write_size();
    write_front(round, held, whole, &mut made[..room], out)?;
    if held < count {
        return Err(FrameStop::Truncated {
            frames: round.done(),
        });
    }
    Ok(())
}

// Reads, runs and writes the next block of `all` frames. `frames` and `made` hold a whole block.
fn filter_next<I: Source, O: Sink>(
    round: &mut Round,
    all: u32,
    frames: &mut [u8],
    made: &mut [u8],
    input: &mut I,
    out: &mut O,
) -> Result<(), FrameStop>
    requires more { round.old.runner.done < all }
    requires frames { length frames.old ≡ 4096 * read_size (round_setting round.old) }
    requires made { length made.old ≡ 4096 * write_size (round_setting round.old) }
    requires left { all ≤ round.old.runner.plan.frames }
    ensures ok { OnOk result (WritesBlock (round_setting round.old) round.old round.new (next_count round.old.runner.done all) (I.left input.old) (I.left input.new) (O.written out.old) (O.written out.new)) }
    ensures stopped { IfErr result (BlockStops (round_setting round.old) round.old round.new (next_count round.old.runner.done all) (I.left input.old) (I.left input.new) (O.written out.old) (O.written out.new)) }
    ensures set { round_setting round.new ≡ round_setting round.old }
    ensures later { (I.faults input.old ≤ I.faults input.new) × (O.faults out.old ≤ O.faults out.new) }
    ensures read { IsErrOf result FrameStop.ReadFault → Rose (I.faults input.old) (I.faults input.new) }
    ensures write { IsErrOf result FrameStop.WriteFault → Rose (O.faults out.old) (O.faults out.new) }
{
    let count = BLOCK.min((all - round.done()) as usize);
    let read = count * round.read_size();
    let written = count * round.write_size();
    filter_block(
        round,
        count,
        &mut frames[..read],
        &mut made[..written],
        input,
        out,
    )
}

/// Writes the header of the output, and then its data, block after block. `frames` and `made` hold a
/// block that is read and one that is written.
pub(crate) fn write_frames<I: Source, O: Sink>(
    round: &mut Round,
    frames: &mut Vec<u8>,
    made: &mut Vec<u8>,
    input: &mut I,
    out: &mut O,
) -> Result<(), FrameStop>
    requires begun { IsBegunRound round.old (round_setting round.old) }
    requires frames { vec_len frames.old ≡ 4096 * read_size (round_setting round.old) }
    requires made { vec_len made.old ≡ 4096 * write_size (round_setting round.old) }
    requires rate { round.old.head.rate ≤ 1000000 }
    requires size { data_size round.old.head < 0xFFFFFF00 }
    requires most { round.old.head.frames ≤ round.old.runner.plan.frames }
    ensures ok { OnOk result (RanSoFar (round_setting round.old) round.new (I.left input.old) (I.left input.new) (O.written out.old) (O.written out.new)) }
    ensures all { OnOk result (round.new.runner.done ≡ round.old.head.frames) }
    ensures stopped { IfErr result (FrameStops (round_setting round.old) (I.left input.old) (I.left input.new) (O.written out.old) (O.written out.new)) }
    ensures later { (I.faults input.old ≤ I.faults input.new) × (O.faults out.old ≤ O.faults out.new) }
    ensures read { IsErrOf result FrameStop.ReadFault → Rose (I.faults input.old) (I.faults input.new) }
    ensures write { IsErrOf result FrameStop.WriteFault → Rose (O.faults out.old) (O.faults out.new) }
    ensures set { round_setting round.new ≡ round_setting round.old }
    ensures frames_kept { vec_len frames.new ≡ vec_len frames.old }
    ensures made_kept { vec_len made.new ≡ vec_len made.old }
{
    round.rules();
    let all = round.head().frames;
    put(out, &head_bytes(&round.written_head()))?;
    while round.done() < all {
        filter_next(round, all, frames, made, input, out)?;
    }
    Ok(())
}

/// Writes the header of the output, its data, block after block, and a pad byte behind data of odd
/// size. `frames` and `made` hold a block that is read and one that is written.
pub(crate) fn write_wave<I: Source, O: Sink>(
    round: &mut Round,
    frames: &mut Vec<u8>,
    made: &mut Vec<u8>,
    input: &mut I,
    out: &mut O,
) -> Result<(), FrameStop>
    requires begun { IsBegunRound round.old (round_setting round.old) }
    requires frames { vec_len frames.old ≡ 4096 * read_size (round_setting round.old) }
    requires made { vec_len made.old ≡ 4096 * write_size (round_setting round.old) }
    requires rate { round.old.head.rate ≤ 1000000 }
    requires size { data_size round.old.head < 0xFFFFFF00 }
    requires most { round.old.head.frames ≤ round.old.runner.plan.frames }
    ensures told { OnOk result ((wave : WritesWave (round_setting round.old) (I.left input.old) (I.left input.new) (O.written out.old) (O.written out.new)) × TellsRun (round_setting round.old) wave.body round.new.limited (totals_by round.new.runner)) }
    ensures stopped { IfErr result (FrameStops (round_setting round.old) (I.left input.old) (I.left input.new) (O.written out.old) (O.written out.new)) }
    ensures same { round_setting round.new ≡ round_setting round.old }
    ensures read_later { I.faults input.old ≤ I.faults input.new }
    ensures write_later { O.faults out.old ≤ O.faults out.new }
    ensures read_fault { IsErrOf result FrameStop.ReadFault → Rose (I.faults input.old) (I.faults input.new) }
    ensures write_fault { IsErrOf result FrameStop.WriteFault → Rose (O.faults out.old) (O.faults out.new) }
    ensures frames_kept { vec_len frames.new ≡ vec_len frames.old }
    ensures made_kept { vec_len made.new ≡ vec_len made.old }
{
    round.rules();
    write_frames(round, frames, made, input, out)?;
    put(out, &[0][..round.pad()])
}
