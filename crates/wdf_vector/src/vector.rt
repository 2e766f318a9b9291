ghost use Rattle.std.specs.Prelude.{◌≡◌, ℕ, ◌+◌, ◌-◌, ◌*◌, ◌<◌, ◌≤◌, ◌^◌, pos, ◌+ℤ◌, ◌-ℤ◌, ◌*ℤ◌, unsigned_abs};
ghost use Rattle.wdf_algebra.specs.Truncation.{trunc};
ghost use Rattle.wdf_vector.specs.Lanes.{lane};

use std::simd::prelude::*;

/// The sums of two numbers each.
#[inline(always)]
pub fn sums<const N: usize>(a: [i64; N], b: [i64; N]) -> [i64; N]
    requires { (c : ℕ) → c < N → unsigned_abs (lane a c) + unsigned_abs (lane b c) < 2 ^ 63 }
    ensures { (c : ℕ) → c < N → lane result c ≡ lane a.entry c +ℤ lane b.entry c }
{
    (Simd::<i64, N>::from_array(a) + Simd::<i64, N>::from_array(b)).to_array()
}

/// The differences of two numbers each.
#[inline(always)]
pub fn differences<const N: usize>(a: [i64; N], b: [i64; N]) -> [i64; N]
    requires { (c : ℕ) → c < N → unsigned_abs (lane a c) + unsigned_abs (lane b c) < 2 ^ 63 }
    ensures { (c : ℕ) → c < N → lane result c ≡ lane a.entry c -ℤ lane b.entry c }
{
    (Simd::<i64, N>::from_array(a) - Simd::<i64, N>::from_array(b)).to_array()
}

/// `m` times each number.
#[inline(always)]
pub fn products<const N: usize>(m: u32, x: [i64; N]) -> [i64; N]
    requires each { (c : ℕ) → c < N → unsigned_abs (lane x c) ≤ 2 ^ 62 }
    requires small { (c : ℕ) → c < N → m * unsigned_abs (lane x c) < 2 ^ 63 }
    ensures { (c : ℕ) → c < N → lane result c ≡ pos m *ℤ lane x.entry c }
{
    (Simd::<i64, N>::splat(i64::from(m)) * Simd::<i64, N>::from_array(x)).to_array()
}

// All but one of a whole unit, in units of `2^-K`: the bits below it.
#[inline(always)]
fn bits_below<const K: u32>() -> i64
    requires { K ≤ 20 }
    ensures { result ≡ pos (2 ^ K - 1) }
{
    let unit: i64 = 1 << K;
    unit - 1
}

/// Each sum of a whole number and a number that is counted in units of `2^-K`, brought back to whole
/// units, truncated towards zero.
#[inline(always)]
pub fn parts<const K: u32, const N: usize>(wholes: [i64; N], x: [i64; N]) -> [i64; N]
    requires few { K ≤ 20 }
    requires wholes { (c : ℕ) → c < N → unsigned_abs (lane wholes c) ≤ 2 ^ 61 }
    requires small { (c : ℕ) → c < N → unsigned_abs (lane x c) ≤ 2 ^ 62 }
    ensures { (c : ℕ) → c < N → lane result c ≡ trunc (pos (2 ^ K) *ℤ lane wholes.entry c +ℤ lane x.entry c) (2 ^ K) }
{
    let numbers = Simd::<i64, N>::from_array(x);
    let floors = Simd::<i64, N>::from_array(wholes) + (numbers >> Simd::splat(i64::from(K)));
    // Below zero exactly where something is over the floor: so both are where one more is due.
    let owed = Simd::splat(0) - (numbers & Simd::splat(bits_below::<K>()));
    (floors - ((floors & owed) >> Simd::splat(63))).to_array()
}
