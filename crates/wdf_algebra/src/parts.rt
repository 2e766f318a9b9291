// What a junction sends to its parts, by one quotient rounded both ways: each value is a sum of whole
// waves and of that quotient.
ghost use Rattle.std.specs.Prelude.{◌≡◌, ℕ, ◌≤◌, ◌^◌, ◌+◌, ℤ, pos, ◌+ℤ◌, ◌-ℤ◌, ◌*ℤ◌, unsigned_abs};
ghost use Rattle.wdf_algebra.specs.Roundings.{IsSmall, Rounds};
ghost use Rattle.wdf_algebra.specs.Truncation.{trunc};

use crate::Rounded;

/// What a parallel junction that is sent `d` sends to the part whose wave is `u`: `d - u` whole
/// units more than `sum`, what the junction reflects before truncation.
pub fn parallel_part(sum: Rounded, d: i64, u: i64) -> i64
    requires sum { IsSmall sum }
    requires sent { unsigned_abs d ≤ 2 ^ 60 }
    requires own { unsigned_abs u ≤ 2 ^ 60 }
    ensures { (q : ℕ) (z : ℤ) → Rounds q z sum.floor sum.ceiling → result ≡ trunc (pos q *ℤ d +ℤ z -ℤ pos q *ℤ u) q }
{
    sum.above(d - u).truncated()
}

/// What a series junction sends to its first part, whose wave is `u`: `share` is the part's
/// multiplier times the wave that all parts share.
pub fn series_first(share: Rounded, u: i64) -> i64
    requires share { IsSmall share }
    requires own { unsigned_abs u ≤ 2 ^ 60 }
    ensures { (q : ℕ) (z : ℤ) → Rounds q z share.floor share.ceiling → result ≡ trunc (pos q *ℤ u +ℤ z) q }
{
    share.above(u).truncated()
}

/// What it sends to its second part, whose wave is `u` and whose multiplier `n` is what the first's
/// is short of a whole unit: `whole`, the wave that all parts share, less the first's share.
pub fn series_second(share: Rounded, whole: i64, u: i64) -> i64
    requires share { IsSmall share }
    requires whole { unsigned_abs whole ≤ 2 ^ 61 }
    requires own { unsigned_abs u ≤ 2 ^ 60 }
    ensures { (q m n : ℕ) → m + n ≡ q → Rounds q (pos m *ℤ whole) share.floor share.ceiling → result ≡ trunc (pos q *ℤ u +ℤ pos n *ℤ whole) q }
{
    share.negated().above(u + whole).truncated()
}

/// What the root sends to the tree whose wave is `u`: `voltage` is the root's voltage.
pub fn root_part(voltage: Rounded, u: i64) -> i64
    requires voltage { IsSmall voltage }
    requires own { unsigned_abs u ≤ 2 ^ 60 }
    ensures { (q : ℕ) (z : ℤ) → Rounds q z voltage.floor voltage.ceiling → result ≡ trunc (z -ℤ pos q *ℤ u) q }
{
    voltage.above(-u).truncated()
}
