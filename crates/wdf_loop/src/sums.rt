// Sums and products that fit.
ghost use Rattle.std.specs.Prelude.{◌≡◌, ◌+◌, ◌*◌, ◌<◌, ◌≤◌, ◌^◌, pos, ◌+ℤ◌, ◌-ℤ◌, ◌*ℤ◌, ◌≤ℤ◌, ℕ, ℤ, unsigned_abs};
ghost use Rattle.wdf_algebra.specs.Roundings.{IsSmall, Rounds};
ghost use Rattle.wdf_algebra.specs.Truncation.{trunc};
ghost use Rattle.wdf_law.specs.Elements.{signed};
ghost use Rattle.wdf_loop.specs.Cells.{IsWord};

use wdf_algebra::{Rounded, times};

pub(crate) fn plus(a: i64, b: i64) -> i64
    requires { unsigned_abs a + unsigned_abs b < 2 ^ 63 }
    ensures value { result ≡ a +ℤ b }
    ensures size { unsigned_abs result ≤ unsigned_abs a + unsigned_abs b }
{
    a + b
}

pub(crate) fn minus(a: i64, b: i64) -> i64
    requires { unsigned_abs a + unsigned_abs b < 2 ^ 63 }
    ensures value { result ≡ a -ℤ b }
    ensures size { unsigned_abs result ≤ unsigned_abs a + unsigned_abs b }
{
    a - b
}

/// What an element reflects whose last down wave is `state`, and which is fed `fed`. The sign stays
/// the same in all frames, so that a choice costs less than a product.
pub(crate) fn reflected<const K: u32>(sign: i64, state: i64, fed: i64) -> i64
    requires few { K ≤ 20 }
    requires sign { unsigned_abs sign ≤ 1 }
    requires state { IsWord (2 ^ K) state }
    requires fed { unsigned_abs fed ≤ 2 ^ 61 }
    ensures { result ≡ sign *ℤ state +ℤ fed }
{
    if sign == 0 {
        return fed;
    }
    if sign < 0 {
        return minus(fed, state);
    }
    plus(fed, state)
}

/// A value, negated where `flip` says so.
pub(crate) fn signed(flip: bool, value: i64) -> i64
    requires { unsigned_abs value ≤ 2 ^ 60 }
    ensures { result ≡ signed flip value }
{
    if flip { -value } else { value }
}

/// m·z, where m is at most q.
#[tactic(auto, using(crate::proofs::Sizes::share))]
pub(crate) fn weighed<const K: u32>(m: u32, z: i64) -> i64
    requires part { m ≤ 2 ^ K }
    requires small { 2 ^ K * unsigned_abs z ≤ 2 ^ 62 }
    ensures value { result ≡ pos m *ℤ z }
    ensures size { unsigned_abs result ≤ 2 ^ K * unsigned_abs z }
{
    times(i64::from(m), z)
}

// A whole unit, in units of 2^-K.
fn unit<const K: u32>() -> i64
    requires { K ≤ 20 }
    ensures value { result ≡ pos (2 ^ K) }
    ensures positive { pos 1 ≤ℤ result }
{
    1 << K
}

/// `x`, which is counted in units of `2^-K`, brought back to whole units. The divisor is a constant of
/// the code, which becomes a shift.
pub(crate) fn brought_back<const K: u32>(x: i64) -> i64
    requires { K ≤ 20 }
    ensures { result ≡ trunc x (2 ^ K) }
{
    x / unit::<K>()
}

/// `whole` units and a rounded number, truncated towards zero. The sum with the floor is made last, so
/// that its sign is known without a comparison.
pub(crate) fn raised(number: Rounded, whole: i64) -> i64
    requires number { IsSmall number }
    requires whole { unsigned_abs whole ≤ 2 ^ 61 }
    ensures { (q : ℕ) (z : ℤ) → Rounds q z number.floor number.ceiling → result ≡ trunc (pos q *ℤ whole +ℤ z) q }
{
    let ceiling = whole + number.ceiling;
    let floor = whole + number.floor;
    Rounded { floor, ceiling }.truncated()
}

// `z`, in units of 2^-K.
fn in_parts<const K: u32>(z: i64) -> i64
    requires few { K ≤ 20 }
    requires small { 2 ^ K * unsigned_abs z ≤ 2 ^ 62 }
    ensures value { result ≡ pos (2 ^ K) *ℤ z }
    ensures size { unsigned_abs result ≤ 2 ^ K * unsigned_abs z }
{
    weighed::<K>(1 << K, z)
}

/// What a series junction sends to its first part, whose wave is `u`: `share` is the part's multiplier
/// times the wave that all parts share, in units of 2^-K.
pub(crate) fn series_first_part<const K: u32>(share: i64, u: i64) -> i64
    requires few { K ≤ 20 }
    requires share { unsigned_abs share ≤ 3 * 2 ^ 60 }
    requires own { IsWord (2 ^ K) u }
    ensures { result ≡ trunc (pos (2 ^ K) *ℤ u +ℤ share) (2 ^ K) }
{
    brought_back::<K>(plus(in_parts::<K>(u), share))
}

/// What it sends to its second part, whose wave is `u` and whose multiplier `n` is what the first's is
/// short of a whole unit: of `whole`, the wave that all parts share, the first has `share`.
pub(crate) fn series_second_part<const K: u32>(share: i64, whole: i64, u: i64) -> i64
    requires few { K ≤ 20 }
    requires share { unsigned_abs share ≤ 3 * 2 ^ 60 }
    requires whole { 2 ^ K * unsigned_abs whole ≤ 3 * 2 ^ 60 }
    requires own { IsWord (2 ^ K) u }
    ensures { (m n : ℕ) → m + n ≡ 2 ^ K → share ≡ pos m *ℤ whole → result ≡ trunc (pos (2 ^ K) *ℤ u +ℤ pos n *ℤ whole) (2 ^ K) }
{
    brought_back::<K>(minus(in_parts::<K>(plus(whole, u)), share))
}
