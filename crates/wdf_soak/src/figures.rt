//! The figures of the output samples of a wave of 16 bits.

ghost use Rattle.std.specs.Prelude.{◌≡◌, ◌≤◌, ◌+◌, ◌*◌, ◌^◌, ◌≤ℤ◌, ◌-ℤ◌, pos, [], length, slice_index_or};
ghost use Rattle.wdf_algebra.specs.Samples.{IsSampleValue};
ghost use Rattle.wdf_wav.specs.PcmStream.{samples_of};
ghost use Rattle.wdf_soak.specs.Figures.{figures_of, figures_with, greater, lesser};

use wdf_made::made_head;
use wdf_wav::laws::{data_append, sample_place};
use wdf_wav::sample_of;

/// The sum, the least and the greatest of the output samples of a wave.
#[derive(Clone, Copy, Debug, PartialEq, Eq)]
pub struct Figures {
    pub sum: i128,
    pub least: i64,
    pub greatest: i64,
}

fn lesser(a: i64, z: i64) -> i64
    ensures { result ≡ lesser a z }
{
    if z < a { z } else { a }
}

fn greater(a: i64, z: i64) -> i64
    ensures { result ≡ greater a z }
{
    if a < z { z } else { a }
}

impl Figures {
    // Those of no samples.
    fn of_none() -> Figures
        ensures { result ≡ figures_of [] }
    {
        Figures {
            sum: 0,
            least: 32_767,
            greatest: -32_768,
        }
    }

    // Those with one sample more.
    fn with(self, sample: i64) -> Figures
        requires low { (pos 0 -ℤ pos (2 ^ 100)) ≤ℤ self.sum }
        requires high { self.sum ≤ℤ pos (2 ^ 100) }
        requires sample { IsSampleValue 16 sample }
        ensures { result ≡ figures_with self sample }
    {
        Figures {
            sum: self.sum + i128::from(sample),
            least: lesser(self.least, sample),
            greatest: greater(self.greatest, sample),
        }
    }
}

// A sample of mono data of 16 bits, counted from 0.
#[tactic(auto, using(crate::proofs::FigureLemmas::mono_sample))]
fn sample_at(bytes: &[u8], place: usize) -> i64
    requires { 2 * place + 2 ≤ length bytes.now }
    ensures value { result ≡ slice_index_or (samples_of 16 bytes.now) place (pos 0) }
    ensures range { IsSampleValue 16 result }
{
    sample_place(&made_head(0));
    sample_of(&bytes[2 * place..2 * place + 2], 16)
}

/// The figures of the samples in the data of a mono wave of 16 bits.
#[tactic(auto, using(crate::proofs::FigureLemmas::figures_next))]
pub fn figures_in(bytes: &[u8]) -> Figures
    ensures { result ≡ figures_of (samples_of 16 bytes.now) }
{
    data_append(16);
    let mut found = Figures::of_none();
    for place in 0..bytes.len() / 2 {
        found = found.with(sample_at(bytes, place));
    }
    found
}
