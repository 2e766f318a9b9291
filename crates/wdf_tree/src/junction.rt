// What the junctions of a network send out, solved for the waves that leave. `u1` and `u2` are the
// waves of a junction's parts, and `d` is the wave that it is sent.
ghost use Rattle.std.specs.Prelude.{◌≡◌, ◌+◌, ◌-◌, ◌*◌, ◌<◌, ◌≤◌, ◌^◌, pos, ◌+ℤ◌, ◌-ℤ◌, ◌*ℤ◌, unsigned_abs};
ghost use Rattle.wdf_algebra.specs.Truncation.{trunc};
ghost use Rattle.wdf_algebra.specs.JunctionValues.{series_value, series_part, parallel_value, parallel_part, root_value};
ghost use Rattle.wdf_tree.specs.Words.{IsWord};

use crate::width::Width;
use wdf_algebra::times;

fn plus(a: i64, b: i64) -> i64
    requires { unsigned_abs a + unsigned_abs b < 2 ^ 63 }
    ensures value { result ≡ a +ℤ b }
    ensures size { unsigned_abs result ≤ unsigned_abs a + unsigned_abs b }
{
    a + b
}

fn minus(a: i64, b: i64) -> i64
    requires { unsigned_abs a + unsigned_abs b < 2 ^ 63 }
    ensures value { result ≡ a -ℤ b }
    ensures size { unsigned_abs result ≤ unsigned_abs a + unsigned_abs b }
{
    a - b
}

// m·z, where m is at most q.
#[tactic(auto, using(crate::proofs::Sizes::share))]
fn weighed(w: Width, m: u32, z: i64) -> i64
    requires part { m ≤ w.q }
    requires small { w.q * unsigned_abs z < 2 ^ 63 }
    ensures value { result ≡ pos m *ℤ z }
    ensures size { unsigned_abs result ≤ w.q * unsigned_abs z }
{
    times(i64::from(m), z)
}

/// What a series junction reflects. It is a whole number before it is truncated.
pub(crate) fn series_up(w: Width, u1: i64, u2: i64) -> i64
    requires first { IsWord w.q u1 }
    requires second { IsWord w.q u2 }
    ensures { result ≡ trunc (series_value w.q u1 u2) w.q }
{
    plus(u1, u2)
}

// What a parallel junction with the multiplier `m` reflects, in units of 1/q.
fn parallel_sum(w: Width, m: u32, u1: i64, u2: i64) -> i64
    requires part { m ≤ w.q }
    requires first { IsWord w.q u1 }
    requires second { IsWord w.q u2 }
    ensures value { result ≡ parallel_value m (w.q - m) u1 u2 }
    ensures size { unsigned_abs result ≤ 2 ^ 61 }
{
    plus(weighed(w, m, u1), weighed(w, w.q - m, u2))
}

/// What a parallel junction reflects.
pub(crate) fn parallel_up(w: Width, m: u32, u1: i64, u2: i64) -> i64
    requires part { m ≤ w.q }
    requires first { IsWord w.q u1 }
    requires second { IsWord w.q u2 }
    ensures { result ≡ trunc (parallel_value m (w.q - m) u1 u2) w.q }
{
    w.truncated(parallel_sum(w, m, u1, u2))
}

// The wave that a series junction is sent, less what it reflects.
fn series_rest(w: Width, u1: i64, u2: i64, d: i64) -> i64
    requires first { IsWord w.q u1 }
    requires second { IsWord w.q u2 }
    requires sent { IsWord w.q d }
    ensures value { result ≡ d -ℤ (u1 +ℤ u2) }
    ensures size { w.q * unsigned_abs result ≤ 3 * 2 ^ 60 }
{
    minus(d, plus(u1, u2))
}

/// What a series junction sends to the part whose wave is `u` and whose multiplier is `m`.
pub(crate) fn series_down(w: Width, m: u32, u1: i64, u2: i64, d: i64, u: i64) -> i64
    requires part { m ≤ w.q }
    requires first { IsWord w.q u1 }
    requires second { IsWord w.q u2 }
    requires sent { IsWord w.q d }
    requires own { IsWord w.q u }
    ensures { result ≡ trunc (series_part w.q m u1 u2 d u) w.q }
{
    let rest = series_rest(w, u1, u2, d);
    w.truncated(plus(weighed(w, w.q, u), weighed(w, m, rest)))
}

/// What a parallel junction with the multiplier `m` sends to the part whose wave is `u`.
pub(crate) fn parallel_down(w: Width, m: u32, u1: i64, u2: i64, d: i64, u: i64) -> i64
    requires part { m ≤ w.q }
    requires first { IsWord w.q u1 }
    requires second { IsWord w.q u2 }
    requires sent { IsWord w.q d }
    requires own { IsWord w.q u }
    ensures { result ≡ trunc (parallel_part w.q m (w.q - m) u1 u2 d u) w.q }
{
    let voltage = plus(weighed(w, w.q, d), parallel_sum(w, m, u1, u2));
    w.truncated(minus(voltage, weighed(w, w.q, u)))
}

/// What the root with the multiplier `m` sends to the tree whose wave is `u`.
pub(crate) fn root_down(w: Width, m: u32, u1: i64, u2: i64, u: i64) -> i64
    requires part { m ≤ w.q }
    requires first { IsWord w.q u1 }
    requires second { IsWord w.q u2 }
    requires own { IsWord w.q u }
    ensures { result ≡ trunc (root_value w.q m (w.q - m) u1 u2 u) w.q }
{
    let voltage = times(2, parallel_sum(w, m, u1, u2));
    w.truncated(minus(voltage, weighed(w, w.q, u)))
}
