//! The wave that is made for a seed, an order and a number of frames.

ghost use Rattle.std.specs.Prelude.{◌≡◌, ◌≤◌, ◌++◌, IfOk, OnOk};
ghost use Rattle.wdf_algebra.specs.Samples.{IsSampleValue};
ghost use Rattle.wdf_wav.specs.SampleCoding.{sample_coding};
ghost use Rattle.wdf_made.specs.Wave.{made_data, made_head, sample_from};
ghost use Rattle.wdf_made.specs.declared.TheConstants.{MAX_FRAMES, MAX_ORDER};

use crate::generator::{behind_words, next_word};
use std::alloc::{AllocError, Global};
use wdf_wav::laws::data_append;
use wdf_wav::{Head, sample_bytes};

/// The head of a wave of so many frames: mono, of 16 bits and 48,000 frames a second.
pub fn made_head(frames: u32) -> Head
    ensures { result ≡ made_head frames }
{
    Head {
        channels: 1,
        rate: 48_000,
        bits: 16,
        frames,
    }
}

// The sample of a word.
fn sample_from(word: u32) -> i64
    ensures value { result ≡ sample_from word }
    ensures range { IsSampleValue 16 result }
{
    i64::from(word % 65_536) - 32_768
}

// Appends the bytes of a sample.
fn push_sample(bytes: &mut Vec<u8>, sample: i64) -> Result<(), AllocError>
    requires { IsSampleValue 16 sample }
    ensures { OnOk result (bytes.new.items ≡ bytes.old.items ++ sample_coding 16 sample) }
{
    bytes.extend_from_slice(&sample_bytes(sample, 16)[..2])?;
    Ok(())
}

/// The bytes behind the head: two of each sample, the lower first.
///
/// # Errors
///
/// Where no memory is left.
#[tactic(auto, using(crate::proofs::WordLemmas::behind_more, crate::proofs::WordLemmas::data_more))]
pub fn made_data(alloc: Global, seed: u64, order: u8, frames: u32) -> Result<Vec<u8>, AllocError>
    requires order { order ≤ MAX_ORDER }
    requires frames { frames ≤ MAX_FRAMES }
    ensures { IfOk result (λ v. v.items ≡ made_data seed order frames) }
{
    data_append(16);
    let mut generator = behind_words(seed, order);
    let mut made = Vec::with_capacity(alloc, 2 * frames as usize)?;
    for _ in 0..frames {
        push_sample(&mut made, sample_from(next_word(&mut generator)))?;
    }
    Ok(made)
}
