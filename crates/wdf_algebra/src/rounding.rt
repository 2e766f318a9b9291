ghost use Rattle.std.specs.Prelude.{◌≡◌, ℕ, ◌≤◌, ◌<◌, ◌^◌, ◌+◌, ℤ, pos, ◌+ℤ◌, ◌-ℤ◌, ◌*ℤ◌, unsigned_abs};
ghost use Rattle.wdf_algebra.specs.Roundings.{IsSmall, Rounds};
ghost use Rattle.wdf_algebra.specs.Truncation.{trunc};

/// A number that is counted in units of `1/q`, rounded down and rounded up to whole units. Its sum
/// with whole units, and the truncation of that sum, are made of these two.
#[derive(Clone, Copy, Debug, PartialEq, Eq)]
pub struct Rounded {
    pub floor: i64,
    pub ceiling: i64,
}

// A whole unit, in units of 2^-K.
pub(crate) fn power<const K: u32>() -> i64
    requires { K ≤ 20 }
    ensures value { result ≡ pos (2 ^ K) }
{
    1 << K
}

impl Rounded {
    /// `x`, which is counted in units of `2^-K`.
    pub fn by_power<const K: u32>(x: i64) -> Rounded
        requires few { K ≤ 20 }
        requires size { unsigned_abs x ≤ 2 ^ 62 }
        ensures rounds { Rounds (2 ^ K) x result.floor result.ceiling }
        ensures small { IsSmall result }
    {
        Rounded {
            floor: x >> K,
            ceiling: (x + (power::<K>() - 1)) >> K,
        }
    }

    /// The number, truncated towards zero.
    pub fn truncated(self) -> i64
        ensures { (q : ℕ) (z : ℤ) → Rounds q z self.floor self.ceiling → result ≡ trunc z q }
    {
        if self.floor < 0 {
            self.ceiling
        } else {
            self.floor
        }
    }

    /// The number's negative.
    pub fn negated(self) -> Rounded
        requires floor { unsigned_abs self.floor ≤ 2 ^ 62 }
        requires ceiling { unsigned_abs self.ceiling ≤ 2 ^ 62 }
        ensures rounds { (q : ℕ) (z : ℤ) → Rounds q z self.floor self.ceiling → Rounds q (pos 0 -ℤ z) result.floor result.ceiling }
        ensures floor { unsigned_abs result.floor ≡ unsigned_abs self.ceiling }
        ensures ceiling { unsigned_abs result.ceiling ≡ unsigned_abs self.floor }
    {
        Rounded {
            floor: -self.ceiling,
            ceiling: -self.floor,
        }
    }

    /// The number and `whole` units more.
    pub fn above(self, whole: i64) -> Rounded
        requires floor { unsigned_abs whole + unsigned_abs self.floor < 2 ^ 63 }
        requires ceiling { unsigned_abs whole + unsigned_abs self.ceiling < 2 ^ 63 }
        ensures { (q : ℕ) (z : ℤ) → Rounds q z self.floor self.ceiling → Rounds q (pos q *ℤ whole +ℤ z) result.floor result.ceiling }
    {
        Rounded {
            floor: whole + self.floor,
            ceiling: whole + self.ceiling,
        }
    }
}
