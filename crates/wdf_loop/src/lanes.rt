// What a stage makes of its numbers in several runs at once: at each place of an array stands the number
// of one of them.
ghost use Rattle.std.specs.Prelude.{◌≡◌, ℕ, ◌+◌, ◌*◌, ◌<◌, ◌≤◌, ◌^◌, pos, ◌+ℤ◌, ◌-ℤ◌, ◌*ℤ◌, unsigned_abs};
ghost use Rattle.wdf_algebra.specs.JunctionValues.{parallel_value};
ghost use Rattle.wdf_algebra.specs.Truncation.{trunc};
ghost use Rattle.wdf_law.specs.Elements.{signed};
ghost use Rattle.wdf_loop.specs.Cells.{IsWord};
ghost use Rattle.wdf_loop.specs.RunCells.{wave_in};

use crate::share::Share;
use wdf_vector::{differences, parts, products, sums};

/// What elements reflect whose last down waves are `states`, and which are fed `fed`.
#[inline(always)]
pub(crate) fn reflected<const K: u32, const N: usize>(
    sign: i64,
    states: [i64; N],
    fed: [i64; N],
) -> [i64; N]
    requires few { K ≤ 20 }
    requires sign { (c : ℕ) → c < N → unsigned_abs sign ≤ 1 }
    requires states { (c : ℕ) → c < N → IsWord (2 ^ K) (wave_in states c) }
    requires fed { (c : ℕ) → c < N → unsigned_abs (wave_in fed c) ≤ 2 ^ 61 }
    ensures { (c : ℕ) → c < N → wave_in result c ≡ sign *ℤ wave_in states.entry c +ℤ wave_in fed.entry c }
{
    if sign == 0 {
        return fed;
    }
    if sign > 0 {
        return sums(states, fed);
    }
    differences(fed, states)
}

/// Values, negated where `flip` says so.
#[inline(always)]
pub(crate) fn signed_all<const N: usize>(flip: bool, values: [i64; N]) -> [i64; N]
    requires { (c : ℕ) → c < N → unsigned_abs (wave_in values c) ≤ 2 ^ 60 }
    ensures { (c : ℕ) → c < N → wave_in result c ≡ signed flip (wave_in values.entry c) }
{
    if flip {
        return differences([0; N], values);
    }
    values
}

/// What parallel junctions reflect before it is truncated, in units of 1/q.
#[inline(always)]
pub(crate) fn raws<const K: u32, const N: usize>(
    share: Share,
    ups: [i64; N],
    waves: [i64; N],
) -> [i64; N]
    requires few { K ≤ 20 }
    requires whole { share.m + share.n ≡ 2 ^ K }
    requires ups { (c : ℕ) → c < N → IsWord (2 ^ K) (wave_in ups c) }
    requires waves { (c : ℕ) → c < N → IsWord (2 ^ K) (wave_in waves c) }
    ensures values { (c : ℕ) → c < N → wave_in result c ≡ parallel_value share.m share.n (wave_in ups.entry c) (wave_in waves.entry c) }
    ensures size { (c : ℕ) → c < N → unsigned_abs (wave_in result c) ≤ 2 ^ 61 }
{
    sums(products(share.m, ups), products(share.n, waves))
}

/// They truncated.
#[inline(always)]
pub(crate) fn brought_back<const K: u32, const N: usize>(raws: [i64; N]) -> [i64; N]
    requires few { K ≤ 20 }
    requires small { (c : ℕ) → c < N → unsigned_abs (wave_in raws c) ≤ 2 ^ 61 }
    ensures { (c : ℕ) → c < N → wave_in result c ≡ trunc (wave_in raws.entry c) (2 ^ K) }
{
    parts::<K, N>([0; N], raws)
}

/// What parallel junctions that are sent `waves` send to the parts whose waves are `own`.
#[inline(always)]
pub(crate) fn parallel_parts<const K: u32, const N: usize>(
    raws: [i64; N],
    waves: [i64; N],
    own: [i64; N],
) -> [i64; N]
    requires few { K ≤ 20 }
    requires raws { (c : ℕ) → c < N → unsigned_abs (wave_in raws c) ≤ 2 ^ 61 }
    requires waves { (c : ℕ) → c < N → IsWord (2 ^ K) (wave_in waves c) }
    requires own { (c : ℕ) → c < N → IsWord (2 ^ K) (wave_in own c) }
    ensures { (c : ℕ) → c < N
        → wave_in result c ≡ trunc (pos (2 ^ K) *ℤ wave_in waves.entry c +ℤ wave_in raws.entry c -ℤ pos (2 ^ K) *ℤ wave_in own.entry c) (2 ^ K) }
{
    parts::<K, N>(differences(waves, own), raws)
}

/// What series junctions send to the parts whose waves are `own` and whose multiplier is `m`; `whole` is
/// the wave that all parts share.
#[inline(always)]
pub(crate) fn series_parts<const K: u32, const N: usize>(
    m: u32,
    whole: [i64; N],
    own: [i64; N],
) -> [i64; N]
    requires few { K ≤ 20 }
    requires part { m ≤ 2 ^ K }
    requires whole { (c : ℕ) → c < N → 2 ^ K * unsigned_abs (wave_in whole c) ≤ 3 * 2 ^ 60 }
    requires own { (c : ℕ) → c < N → IsWord (2 ^ K) (wave_in own c) }
    ensures { (c : ℕ) → c < N
        → wave_in result c ≡ trunc (pos (2 ^ K) *ℤ wave_in own.entry c +ℤ pos m *ℤ wave_in whole.entry c) (2 ^ K) }
{
    parts::<K, N>(own, products(m, whole))
}

/// What the root sends to the trees whose waves are `own`, `raws` being half of its voltage.
#[inline(always)]
pub(crate) fn root_parts<const K: u32, const N: usize>(raws: [i64; N], own: [i64; N]) -> [i64; N]
    requires few { K ≤ 20 }
    requires raws { (c : ℕ) → c < N → unsigned_abs (wave_in raws c) ≤ 2 ^ 61 }
    requires own { (c : ℕ) → c < N → IsWord (2 ^ K) (wave_in own c) }
    ensures { (c : ℕ) → c < N
        → wave_in result c ≡ trunc (pos 2 *ℤ wave_in raws.entry c -ℤ pos (2 ^ K) *ℤ wave_in own.entry c) (2 ^ K) }
{
    parts::<K, N>(differences([0; N], own), sums(raws, raws))
}
