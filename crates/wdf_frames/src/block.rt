// The parts of a round: how it is shaped, and what it does with the samples of a block.
ghost use Rattle.std.specs.Prelude.{◌≡◌, ◌+◌, ◌*◌, ◌/◌, ◌<◌, ◌≤◌, length, take, pos, slice_index_or, unsigned_abs, All, vec_len};
ghost use Rattle.wdf_algebra.specs.Samples.{IsSampleWidth};
ghost use Rattle.wdf_lattice.specs.Sides.{sources_driven, run_count, down_shift_of};
ghost use Rattle.wdf_lattice.specs.Runners.{RunsOn, NotesOn, accounts_of, states_of};
ghost use Rattle.wdf_wav.specs.PcmStream.{samples_of};
ghost use Rattle.wdf_frames.specs.Found.{IsFound};

use crate::over::Over;
use crate::samples::{count_small, decode};
use wdf_bounds::Plan;
use wdf_lattice::{Networks, Runner};

/// How often the output value halves the load wave.
pub(crate) fn down_shift(networks: &Networks, plan: &Plan) -> u8
    ensures value { result ≡ down_shift_of networks.now plan.now.guard plan.now.shift }
    ensures few { result ≤ 33 }
{
    match networks {
        Networks::Ladder(_) => plan.guard() + plan.shift(),
        Networks::Lattice { .. } => plan.guard() + plan.shift() + 1,
    }
}

/// How many runs the channels drive.
pub(crate) fn run_count(networks: &Networks, channels: u16) -> usize
    ensures { result ≡ run_count networks.now channels }
{
    if networks.sources_driven() == 1 {
        usize::from(channels)
    } else {
        1
    }
}

// Reads `count` samples from their bytes, and says how many stand in front of the first over amp.
fn load_front(bits: u8, amp: u32, count: usize, bytes: &[u8], samples: &mut [i64]) -> usize
    requires width { IsSampleWidth bits }
    requires whole { length bytes.now ≡ count * (bits / 8) }
    requires room { count ≤ length samples.old }
    ensures read { take count samples.new ≡ samples_of bits bytes.now }
    ensures most { result ≤ count }
    ensures small { All (λ z. unsigned_abs z ≤ amp) (take result (samples_of bits bytes.now)) }
    ensures over { result < count → amp < unsigned_abs (slice_index_or (samples_of bits bytes.now) result (pos 0)) }
{
    decode(bits, bytes, &mut samples[..count]);
    count_small(amp, &samples[..count])
}

/// The same, into a buffer that keeps its length.
pub(crate) fn load_samples(
    bits: u8,
    amp: u32,
    count: usize,
    bytes: &[u8],
    samples: &mut Vec<i64>,
) -> usize
    requires width { IsSampleWidth bits }
    requires whole { length bytes.now ≡ count * (bits / 8) }
    requires room { count ≤ vec_len samples.old }
    ensures kept { vec_len samples.new ≡ vec_len samples.old }
    ensures read { take count samples.new.items ≡ samples_of bits bytes.now }
    ensures most { result ≤ count }
    ensures small { All (λ z. unsigned_abs z ≤ amp) (take result (samples_of bits bytes.now)) }
    ensures over { result < count → amp < unsigned_abs (slice_index_or (samples_of bits bytes.now) result (pos 0)) }
{
    load_front(bits, amp, count, bytes, samples)
}

// Runs `count` frames of samples, and gives their load waves.
fn run_front(runner: &mut Runner, count: usize, runs: usize, samples: &[i64], waves: &mut [i64])
    requires runs { runs ≡ runner.old.runs }
    requires room { count * runs ≤ length waves.old }
    requires frames { length samples.now ≡ count * (runs * sources_driven runner.old.networks) }
    requires left { runner.old.done + count ≤ runner.old.plan.frames }
    requires amplitude { All (λ z. unsigned_abs z ≤ runner.old.plan.amp) samples.now }
    ensures on { RunsOn runner.old.networks runner.old.plan.guard runs (states_of runner.old) (states_of runner.new) samples.now (take (count * runs) waves.new) }
    ensures accounts { NotesOn runner.old.networks runner.old.plan.guard runs (states_of runner.old) (accounts_of runner.old) (accounts_of runner.new) samples.now }
    ensures done { runner.new.done ≡ runner.old.done + count }
    ensures networks { runner.new.networks ≡ runner.old.networks }
    ensures plan { runner.new.plan ≡ runner.old.plan }
    ensures runs { runner.new.runs ≡ runner.old.runs }
{
    runner.block(samples, &mut waves[..count * runs]);
}

/// The same, into a buffer that keeps its length.
pub(crate) fn run_samples(
    runner: &mut Runner,
    count: usize,
    runs: usize,
    samples: &[i64],
    waves: &mut Vec<i64>,
)
    requires runs { runs ≡ runner.old.runs }
    requires room { count * runs ≤ vec_len waves.old }
    requires frames { length samples.now ≡ count * (runs * sources_driven runner.old.networks) }
    requires left { runner.old.done + count ≤ runner.old.plan.frames }
    requires amplitude { All (λ z. unsigned_abs z ≤ runner.old.plan.amp) samples.now }
    ensures kept { vec_len waves.new ≡ vec_len waves.old }
    ensures on { RunsOn runner.old.networks runner.old.plan.guard runs (states_of runner.old) (states_of runner.new) samples.now (take (count * runs) waves.new.items) }
    ensures accounts { NotesOn runner.old.networks runner.old.plan.guard runs (states_of runner.old) (accounts_of runner.old) (accounts_of runner.new) samples.now }
    ensures done { runner.new.done ≡ runner.old.done + count }
    ensures networks { runner.new.networks ≡ runner.old.networks }
    ensures plan { runner.new.plan ≡ runner.old.plan }
    ensures runs { runner.new.runs ≡ runner.old.runs }
{
    run_front(runner, count, runs, samples, waves);
}

/// The whole frames among so many samples of `count` frames.
#[tactic(auto, using(crate::proofs::FrameLemmas::whole_within, crate::proofs::FrameLemmas::whole_inside))]
pub(crate) fn whole_frames(samples: usize, channels: usize, count: usize) -> usize
    requires some { 1 ≤ channels }
    requires most { samples ≤ count * channels }
    ensures value { result ≡ samples / channels }
    ensures most { result ≤ count }
    ensures inside { result * channels ≤ samples }
{
    let _ = count;
    samples / channels
}

/// The first sample over amp, behind so many of `samples`, if it is one of these.
pub(crate) fn found(channels: u16, small: usize, samples: &[i64]) -> Option<Over>
    requires some { 1 ≤ channels }
    ensures { IsFound channels small samples.now result }
{
    if small < samples.len() {
        Some(Over {
            frame: small / usize::from(channels),
            channel: (small % usize::from(channels)) as u16,
            sample: samples[small],
        })
    } else {
        None
    }
}
