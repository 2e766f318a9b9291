// Whole frames of a wave, run in blocks.
ghost use Rattle.std.specs.Prelude.{vec_len};
ghost use Rattle.wdf_frames.specs.Shaped.{IsShaped};

use crate::block::{down_shift, found, load_samples, run_count, run_samples, whole_frames};
use crate::over::Over;
use crate::samples::encode;
use std::alloc::{AllocError, Global};
use wdf_bounds::Plan;
use wdf_energy::Totals;
use wdf_lattice::laws::{goes_on_from_rest, one_wave, totals_told};
use wdf_lattice::{Networks, Runner};
use wdf_law::Side;
use wdf_wav::Head;
use wdf_wav::laws::data_append;

/// The most frames of a block.
pub(crate) const BLOCK: usize = 4096;

/// The runs of a wave's frames, block after block.
#[derive(Drop)]
pub(crate) struct Round {
    runner: Runner,
    plan: Plan,
    head: Head,
    // An output value is the load wave by 2^down.
    down: u8,
    runs: usize,
    // The output samples that were limited so far.
    limited: u64,
    samples: Vec<i64>,
    waves: Vec<i64>,
    ghost shaped: { IsShaped runner plan head down runs limited (vec_len samples) (vec_len waves) },
}

impl Round {
    ghost use Rattle.std.specs.Prelude.{◌≡◌, ◌+◌, ◌*◌, ◌<◌, ◌≤◌, length, take, pos, slice_index_or, unsigned_abs, IfOk};
    ghost use Rattle.wdf_lattice.specs.Sides.{sources_driven, run_count};
    ghost use Rattle.wdf_lattice.specs.Runners.{FitsEach, DriveAll, totals_by};
    ghost use Rattle.wdf_wav.specs.Header.{IsFrameFormat, pad_size};
    ghost use Rattle.wdf_frames.specs.Setting.{AreSmall, samples_in, setting, runs_of, read_size, write_size, written_head};
    ghost use Rattle.wdf_frames.specs.Progress.{IsBegunRound, RunsFrames, RunsSamples, FindsOver, HasLaws, frames_before, round_setting};

    /// A round at rest, with buffers of a block.
    ///
    /// # Errors
    ///
    /// Where no memory is left.
    #[tactic(auto, using(crate::proofs::WidthLemmas::width_tested))]
    pub(crate) fn new(
        alloc: Global,
        networks: Networks,
        plan: Plan,
        head: Head,
    ) -> Result<Round, AllocError>
        requires plan { FitsEach networks plan }
        requires format { IsFrameFormat head.channels head.bits }
        requires bits { head.bits ≡ plan.bits }
        requires driven { DriveAll networks (run_count networks head.channels) }
        requires sources { 1 < sources_driven networks → head.channels ≡ sources_driven networks }
        ensures { IfOk result (λ r. IsBegunRound r (setting networks plan head)) }
    {
        let runs = run_count(&networks, head.channels);
        let down = down_shift(&networks, &plan);
        let samples = vec![in alloc; 0i64; BLOCK * usize::from(head.channels)]?;
        let waves = vec![in alloc; 0i64; BLOCK * runs]?;
        let runner = Runner::new(alloc, networks, plan, runs)?;
        Ok(Round {
            runner,
            plan,
            head,
            down,
            runs,
            limited: 0,
            samples,
            waves,
        })
    }

    /// The same, in a box.
    ///
    /// # Errors
    ///
    /// Where no memory is left.
    pub(crate) fn boxed(
        alloc: Global,
        networks: Networks,
        plan: Plan,
        head: Head,
    ) -> Result<Box<Round>, AllocError>
        requires plan { FitsEach networks plan }
        requires format { IsFrameFormat head.channels head.bits }
        requires bits { head.bits ≡ plan.bits }
        requires driven { DriveAll networks (run_count networks head.channels) }
        requires sources { 1 < sources_driven networks → head.channels ≡ sources_driven networks }
        ensures { IfOk result (λ b. IsBegunRound b.value (setting networks plan head)) }
    {
        let round = Round::new(alloc, networks, plan, head)?;
        Ok(Box::new(alloc, round)?)
    }

    // Reads the samples of `count` frames, and says how many stand in front of the first over amp.
    #[tactic(auto, using(crate::proofs::WidthLemmas::width_told))]
    fn load(&mut self, count: usize, frames: &[u8]) -> usize
        requires few { count ≤ 4096 }
        requires frames { length frames.now ≡ count * read_size (round_setting self.old) }
        ensures runner { self.new.runner ≡ self.old.runner }
        ensures head { self.new.head ≡ self.old.head }
        ensures limited { self.new.limited ≡ self.old.limited }
        ensures read { take (count * self.old.head.channels) self.new.samples.items ≡ samples_in (round_setting self.old) frames.now }
        ensures most { result ≤ count * self.old.head.channels }
        ensures small { AreSmall (round_setting self.old) (take result (samples_in (round_setting self.old) frames.now)) }
        ensures over { result < count * self.old.head.channels → self.old.runner.plan.amp < unsigned_abs (slice_index_or (samples_in (round_setting self.old) frames.now) result (pos 0)) }
    {
        let all = count * usize::from(self.head.channels);
        load_samples(
            self.plan.bits(),
            self.plan.amp(),
            all,
            frames,
            &mut self.samples,
        )
    }

    // Runs the first `count` frames of the samples that were read.
    #[tactic(auto, using(crate::proofs::WidthLemmas::width_told))]
    fn run_whole(&mut self, count: usize, made: &mut [u8])
        requires few { count ≤ 4096 }
        requires made { length made.old ≡ count * write_size (round_setting self.old) }
        requires left { self.old.runner.done + count ≤ self.old.runner.plan.frames }
        requires small { AreSmall (round_setting self.old) (take (count * self.old.head.channels) self.old.samples.items) }
        ensures ran { RunsSamples (round_setting self.old) self.old self.new (take (count * self.old.head.channels) self.old.samples.items) made.new count }
        ensures kept { self.new.samples ≡ self.old.samples }
    {
        self.plan.rules();
        let bits = self.plan.bits();
        let samples = &self.samples[..count * usize::from(self.head.channels)];
        run_samples(&mut self.runner, count, self.runs, samples, &mut self.waves);
        let waves = &self.waves[..count * self.runs];
        let limited = encode(self.down, bits, waves, made);
        self.limited += limited;
    }

    /// Runs the whole frames in front of the first sample over amp, of `count` frames, and writes the
    /// data of their output samples into the front of `made`.
    pub(crate) fn run(&mut self, count: usize, frames: &[u8], made: &mut [u8]) -> Option<Over>
        requires few { count ≤ 4096 }
        requires frames { length frames.now ≡ count * read_size (round_setting self.old) }
        requires made { length made.old ≡ count * write_size (round_setting self.old) }
        requires left { self.old.runner.done + count ≤ self.old.runner.plan.frames }
        ensures found { FindsOver (round_setting self.old) frames.now result }
        ensures set { round_setting self.new ≡ round_setting self.old }
        ensures inside { frames_before count result ≤ count }
        ensures run { let s = round_setting self.old in let n = frames_before count result in
            RunsFrames s self.old self.new (take (n * read_size s) frames.now) (take (n * write_size s) made.new) n }
    {
        self.rules();
        let channels = usize::from(self.head.channels);
        let small = self.load(count, frames);
        let whole = whole_frames(small, channels, count);
        let size = whole * self.write_size();
        self.run_whole(whole, &mut made[..size]);
        found(self.head.channels, small, &self.samples[..count * channels])
    }

    /// How many frames are done.
    pub(crate) fn done(&self) -> u32
        ensures { result ≡ self.now.runner.done }
    {
        self.runner.done()
    }

    /// The head of the input.
    #[tactic(auto, using(crate::proofs::WidthLemmas::width_told))]
    pub(crate) fn head(&self) -> Head
        ensures value { result ≡ self.now.head }
        ensures format { IsFrameFormat result.channels result.bits }
    {
        self.head
    }

    /// The head of the output.
    #[tactic(auto, using(crate::proofs::WidthLemmas::width_told))]
    pub(crate) fn written_head(&self) -> Head
        ensures value { result ≡ written_head (round_setting self.now) }
        ensures format { IsFrameFormat result.channels result.bits }
    {
        Head {
            channels: self.runs as u16,
            ..self.head
        }
    }

    /// The bytes of a frame that is read.
    pub(crate) fn read_size(&self) -> usize
        ensures value { result ≡ read_size (round_setting self.now) }
        ensures some { 1 ≤ result }
        ensures few { result ≤ 32 }
    {
        usize::from(self.head.channels) * usize::from(self.plan.bits() / 8)
    }

    /// The bytes of a frame that is written.
    pub(crate) fn write_size(&self) -> usize
        ensures value { result ≡ write_size (round_setting self.now) }
        ensures some { 1 ≤ result }
        ensures few { result ≤ 32 }
    {
        self.runs * usize::from(self.plan.bits() / 8)
    }

    /// How many pad bytes stand behind the output's data.
    pub(crate) fn pad(&self) -> usize
        ensures value { result ≡ pad_size (written_head (round_setting self.now)) }
        ensures few { result ≤ 1 }
    {
        self.head.frames as usize * self.write_size() % 2
    }

    /// The networks that run.
    pub(crate) fn networks(&self) -> &Networks
        ensures { result.now ≡ (round_setting self.now).networks }
    {
        self.runner.networks()
    }

    /// How many runs there are.
    pub(crate) fn runs(&self) -> usize
        ensures value { result ≡ runs_of (round_setting self.now) }
        ensures some { 1 ≤ result }
        ensures few { result ≤ 8 }
    {
        self.runs
    }

    /// Where the energy of a run went so far, if there are such a side and run.
    pub(crate) fn totals(&self, side: Side, run: usize) -> Option<Totals>
        ensures { result ≡ totals_by self.now.runner side run }
    {
        self.runner.totals(side, run)
    }

    /// The output samples that were limited so far.
    pub(crate) fn limited(&self) -> u64
        ensures { result ≡ self.now.limited }
    {
        self.limited
    }

    /// What is known of every round's setting.
    #[tactic(auto, using(crate::proofs::WidthLemmas::width_told))]
    pub(crate) fn rules(&self)
        ensures { HasLaws (round_setting self.now) }
    {
        data_append(self.head.bits);
        goes_on_from_rest(self.runner.networks());
        one_wave(self.runner.networks());
        totals_told(self.runner.networks());
    }
}
