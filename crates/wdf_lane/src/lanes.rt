// Four numbers at a time.
ghost use Rattle.std.specs.Prelude.{◌≡◌, ◌≤◌, ◌-◌, ◌^◌, length, map, pos};
ghost use Rattle.std.specs.Int.{int_max, int_min};
ghost use Rattle.wdf_algebra.specs.Truncation.{trunc};
ghost use Rattle.wdf_lane.specs.Lanes.{AreFour, changes};
ghost use Rattle.wdf_wav.specs.PcmStream.{samples_of};

use std::simd::prelude::*;

// All but one of a whole unit of 2^down: the bits below it.
#[inline(always)]
fn part_mask(down: u8) -> i64
    requires { down ≤ 33 }
    ensures { result ≡ pos (2 ^ down - 1) }
{
    let unit: i64 = 1 << down;
    unit - 1
}

// Four numbers of a slice.
#[inline(always)]
pub(crate) fn four_numbers(numbers: &[i64]) -> i64x4
    requires { length numbers.now ≡ 4 }
    ensures values { result ≡ numbers.now }
    ensures four { AreFour result }
{
    i64x4::from_array([numbers[0], numbers[1], numbers[2], numbers[3]])
}

// The quotients by 2^down, truncated towards zero: where a number is below zero, all but one of a
// whole unit is added before the shift, which rounds down.
#[inline(always)]
pub(crate) fn quotients(waves: i64x4, down: u8) -> i64x4
    requires few { down ≤ 33 }
    requires four { AreFour waves }
    ensures values { result ≡ map (λ w. trunc w (2 ^ down)) waves }
    ensures four { AreFour result }
{
    let signs = waves >> i64x4::splat(63);
    let more = signs & i64x4::splat(part_mask(down));
    (waves + more) >> i64x4::splat(i64::from(down))
}

// The nearest numbers from `low` to `high`.
#[inline(always)]
pub(crate) fn nearest(values: i64x4, low: i64, high: i64) -> i64x4
    requires { AreFour values }
    ensures values { result ≡ map (λ z. int_max low (int_min high z)) values }
    ensures four { AreFour result }
{
    let below = values.simd_min(i64x4::splat(high));
    below.simd_max(i64x4::splat(low))
}

// In how many lanes two vectors differ.
#[inline(always)]
pub(crate) fn count_changes(old: i64x4, new: i64x4) -> u32
    requires old { AreFour old }
    requires new { AreFour new }
    ensures { result ≡ changes old new }
{
    old.simd_ne(new).to_bitmask().count_ones()
}

// The four samples of 16 bits in eight bytes.
#[inline(always)]
pub(crate) fn four_samples(bytes: &[u8]) -> i64x4
    requires { length bytes.now ≡ 8 }
    ensures values { result ≡ samples_of 16 bytes.now }
    ensures four { AreFour result }
{
    i16x4::from_le_bytes(u8x8::from_slice(bytes)).cast::<i64>()
}
