ghost use Rattle.std.specs.Prelude.{◌≡◌, ◌≤◌, ◌-◌, ◌*◌, ◌/◌, ◌^◌, length, take, map, filter, pos, neg_ℤ, ◌-ℤ◌, ◌≤ℤ◌, All};
ghost use Rattle.wdf_algebra.specs.Samples.{IsSampleValue, IsSampleWidth};
ghost use Rattle.wdf_law.specs.OutputRule.{output_of};
ghost use Rattle.wdf_loop.specs.Limiting.{is_limited};

use crate::lanes::{count_changes, four_numbers, nearest, quotients};
use wdf_loop::out_sample;

// The first value above those of `bits` bits.
#[inline(always)]
fn limit_of(bits: u8) -> i64
    requires { IsSampleWidth bits }
    ensures value { result ≡ pos (2 ^ (bits - 1)) }
    ensures low { pos 128 ≤ℤ result }
    ensures high { result ≤ℤ pos (2 ^ 31) }
{
    match bits {
        8 => 128,
        16 => 32768,
        24 => 8388608,
        _ => 2147483648,
    }
}

// The lowest value of `bits` bits.
#[inline(always)]
fn lowest(bits: u8) -> i64
    requires { IsSampleWidth bits }
    ensures { result ≡ neg_ℤ (pos (2 ^ (bits - 1))) }
{
    -limit_of(bits)
}

// The highest value of `bits` bits.
#[inline(always)]
fn highest(bits: u8) -> i64
    requires { IsSampleWidth bits }
    ensures { result ≡ pos (2 ^ (bits - 1)) -ℤ pos 1 }
{
    limit_of(bits) - 1
}

// The output samples of four waves, and how many were limited.
#[inline(always)]
fn limit_four(waves: &[i64], down: u8, bits: u8, out: &mut [i64]) -> u64
    requires few { down ≤ 33 }
    requires width { IsSampleWidth bits }
    requires waves { length waves.now ≡ 4 }
    requires room { length out.old ≡ 4 }
    ensures values { out.new ≡ map (output_of down bits) waves.now }
    ensures limited { result ≡ length (filter (is_limited down bits) waves.now) }
    ensures most { result ≤ 4 }
{
    let values = quotients(four_numbers(waves), down);
    let limited = nearest(values, lowest(bits), highest(bits));
    limited.copy_to_slice(out);
    u64::from(count_changes(values, limited))
}

// The output samples of the waves in whole groups of four, and how many were limited. The width is a
// constant of the code, so that the loop has no choice in it.
fn limit_groups_at<const BITS: u8>(waves: &[i64], down: u8, out: &mut [i64]) -> u64
    requires few { down ≤ 33 }
    requires width { IsSampleWidth BITS }
    requires room { length out.old ≡ length waves.now }
    ensures room { length out.new ≡ length out.old }
    ensures values { take (length waves.now / 4 * 4) out.new ≡ map (output_of down BITS) (take (length waves.now / 4 * 4) waves.now) }
    ensures limited { result ≡ length (filter (is_limited down BITS) (take (length waves.now / 4 * 4) waves.now)) }
    ensures most { result ≤ length waves.now / 4 * 4 }
{
    let mut limited = 0;
    for k in 0..waves.len() / 4 {
        limited += limit_four(
            &waves[k * 4..k * 4 + 4],
            down,
            BITS,
            &mut out[k * 4..k * 4 + 4],
        );
    }
    limited
}

// The output samples of the waves in whole groups of four, and how many were limited.
fn limit_groups(waves: &[i64], down: u8, bits: u8, out: &mut [i64]) -> u64
    requires few { down ≤ 33 }
    requires width { IsSampleWidth bits }
    requires room { length out.old ≡ length waves.now }
    ensures room { length out.new ≡ length out.old }
    ensures values { take (length waves.now / 4 * 4) out.new ≡ map (output_of down bits) (take (length waves.now / 4 * 4) waves.now) }
    ensures limited { result ≡ length (filter (is_limited down bits) (take (length waves.now / 4 * 4) waves.now)) }
    ensures most { result ≤ length waves.now / 4 * 4 }
{
    match bits {
        8 => limit_groups_at::<8>(waves, down, out),
        16 => limit_groups_at::<16>(waves, down, out),
        24 => limit_groups_at::<24>(waves, down, out),
        _ => limit_groups_at::<32>(waves, down, out),
    }
}

// The output samples from number `from` on, where those before are there, and how many of all were
// limited, where `before` of those before were.
fn limit_rest(waves: &[i64], from: usize, before: u64, down: u8, bits: u8, out: &mut [i64]) -> u64
    requires few { down ≤ 33 }
    requires width { IsSampleWidth bits }
    requires room { length out.old ≡ length waves.now }
    requires inside { from ≤ length waves.now }
    requires values { take from out.old ≡ map (output_of down bits) (take from waves.now) }
    requires limited { before ≡ length (filter (is_limited down bits) (take from waves.now)) }
    requires most { before ≤ from }
    ensures values { out.new ≡ map (output_of down bits) waves.now }
    ensures limited { result ≡ length (filter (is_limited down bits) waves.now) }
    ensures most { result ≤ length waves.now }
{
    let mut limited = before;
    for k in from..waves.len() {
        let sample = out_sample(waves[k], down, bits);
        out[k] = sample.value;
        limited += u64::from(sample.limited);
    }
    limited
}

/// Gives the output samples of `bits` bits that load waves come to, and says how many were limited:
/// of each wave what [`out_sample`] gives.
///
/// The waves are counted in units of `2^-down` of an output step; `down` is at most 33, and `bits` is
/// 8, 16, 24 or 32. `out` has an entry for each wave.
pub fn limit_block(waves: &[i64], down: u8, bits: u8, out: &mut [i64]) -> u64
    requires few { down ≤ 33 }
    requires width { IsSampleWidth bits }
    requires room { length out.old ≡ length waves.now }
    ensures values { out.new ≡ map (output_of down bits) waves.now }
    ensures range { All (IsSampleValue bits) out.new }
    ensures limited { result ≡ length (filter (is_limited down bits) waves.now) }
    ensures most { result ≤ length waves.now }
{
    let limited = limit_groups(waves, down, bits, out);
    limit_rest(waves, waves.len() / 4 * 4, limited, down, bits, out)
}
