ghost use Rattle.std.specs.Prelude.{vec_len};
ghost use Rattle.wdf_frames.specs.Shaped.{HasRoom};

use crate::FrameStop;
use crate::frames::write_wave;
use crate::round::{BLOCK, Round};
use std::alloc::{AllocError, Global};
use wdf_bounds::Plan;
use wdf_energy::Totals;
use wdf_io::{Sink, Source};
use wdf_lattice::Networks;
use wdf_law::Side;
use wdf_wav::Head;

/// The run of one wave by a netlist's networks. It holds all the memory that the run takes.
#[derive(Drop)]
pub struct WaveRun {
    // In a box, since it is large: it has the engines of all runs.
    round: Box<Round>,
    // The bytes of a block that is read, and of one that is written.
    frames: Vec<u8>,
    made: Vec<u8>,
    ghost room: { HasRoom round.value.runner round.value.head round.value.runs (vec_len frames) (vec_len made) },
}

impl WaveRun {
    ghost use Rattle.std.specs.Prelude.{◌≡◌, ◌<◌, ◌≤◌, IfOk, OnOk, IfErr, IsErrOf};
    ghost use Rattle.wdf_io.specs.Causes.{Rose};
    ghost use Rattle.wdf_lattice.specs.Sides.{sources_driven, run_count};
    ghost use Rattle.wdf_lattice.specs.Runners.{FitsEach, DriveAll};
    ghost use Rattle.wdf_wav.specs.Header.{IsPcmHead};
    ghost use Rattle.wdf_frames.specs.Setting.{setting, runs_of};
    ghost use Rattle.wdf_frames.specs.RunFacts.{TellsRun};
    ghost use Rattle.wdf_frames.specs.WaveRuns.{WritesWave};
    ghost use Rattle.wdf_frames.specs.Stops.{FrameStops};
    ghost use Rattle.wdf_frames.specs.RunStates.{IsReady, IsFresh, limited_by, setting_of, totals_by};

    /// A run, at rest, of a wave whose head was read.
    ///
    /// The plan fits each network and has the head's width and at least its frames. With several
    /// sources the wave has a channel for each; a branch of a lattice has one source.
    ///
    /// # Errors
    ///
    /// Where no memory is left. No later call takes memory.
    pub fn new(
        alloc: Global,
        networks: Networks,
        plan: &Plan,
        head: &Head,
    ) -> Result<WaveRun, AllocError>
        requires plan { FitsEach networks plan.now }
        requires head { IsPcmHead head.now }
        requires bits { head.now.bits ≡ plan.now.bits }
        requires frames { head.now.frames ≤ plan.now.frames }
        requires driven { DriveAll networks (run_count networks head.now.channels) }
        requires sources { 1 < sources_driven networks → head.now.channels ≡ sources_driven networks }
        ensures { IfOk result (IsReady (setting networks plan.now head.now)) }
    {
        let round = Round::boxed(alloc, networks, *plan, *head)?;
        let frames = vec![in alloc; 0u8; BLOCK * round.read_size()]?;
        let made = vec![in alloc; 0u8; BLOCK * round.write_size()]?;
        Ok(WaveRun {
            round,
            frames,
            made,
        })
    }

    /// Reads all frames of the wave, whose head was read, and writes the wave of their load waves:
    /// a header of 44 bytes, the output samples, and a pad byte after data of odd size. It reads and
    /// writes in blocks of at most 4,096 frames. No byte behind the last frame is read. Once it is done,
    /// [`WaveRun::limited`] and [`WaveRun::totals`] tell of just these frames.
    ///
    /// A sample's magnitude is at most the plan's `amp`.
    ///
    /// # Errors
    ///
    /// `ReadFault` and `WriteFault` only where the input's or the output's count of faults rose. Else
    /// `Amplitude`, with the first sample over amp, exactly where a whole frame has one, and else
    /// `Truncated` exactly where the input ends before its last frame. The output has then the header,
    /// which states all frames, and just the output samples of the frames before.
    pub fn write<I: Source, O: Sink>(&mut self, input: &mut I, out: &mut O) -> Result<(), FrameStop>
        requires { IsFresh self.old }
        ensures told { OnOk result ((wave : WritesWave (setting_of self.old) (I.left input.old) (I.left input.new) (O.written out.old) (O.written out.new)) × TellsRun (setting_of self.old) wave.body (limited_by self.new) (totals_by self.new)) }
        ensures stopped { IfErr result (FrameStops (setting_of self.old) (I.left input.old) (I.left input.new) (O.written out.old) (O.written out.new)) }
        ensures same { setting_of self.new ≡ setting_of self.old }
        ensures read_later { I.faults input.old ≤ I.faults input.new }
        ensures write_later { O.faults out.old ≤ O.faults out.new }
        ensures read_fault { IsErrOf result FrameStop.ReadFault → Rose (I.faults input.old) (I.faults input.new) }
        ensures write_fault { IsErrOf result FrameStop.WriteFault → Rose (O.faults out.old) (O.faults out.new) }
    {
        write_wave(
            &mut self.round,
            &mut self.frames,
            &mut self.made,
            input,
            out,
        )
    }

    /// The networks that run.
    pub fn networks(&self) -> &Networks
        ensures { result.now ≡ (setting_of self.now).networks }
    {
        self.round.networks()
    }

    /// How many runs there are, 1 to 8: one for each channel of the output.
    pub fn runs(&self) -> usize
        ensures value { result ≡ runs_of (setting_of self.now) }
        ensures some { 1 ≤ result }
        ensures few { result ≤ 8 }
    {
        self.round.runs()
    }

    /// Where the energy of a run went, in the frames so far: in all of them once [`WaveRun::write`] is
    /// done. None exactly where the networks have no such side, or there is no such run.
    pub fn totals(&self, side: Side, run: usize) -> Option<Totals>
        ensures { result ≡ totals_by self.now side run }
    {
        self.round.totals(side, run)
    }

    /// How many output samples were limited so far.
    pub fn limited(&self) -> u64
        ensures { result ≡ limited_by self.now }
    {
        self.round.limited()
    }
}
