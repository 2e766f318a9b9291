ghost use Rattle.std.specs.Prelude.{◌≡◌, ◌≤◌, ◌<◌, ◌^◌, ◌*◌, ◌*ℤ◌, unsigned_abs};
ghost use Rattle.wdf_algebra.specs.Truncation.{trunc};

/// The quotient of `x` by `2^k`, truncated towards zero: a wave that is counted in units of
/// `2^-k`, brought back to whole units. The magnitude is shifted, so no division is made.
pub fn quotient(x: i64, k: u32) -> i64
    requires few { k ≤ 62 }
    requires magnitude { unsigned_abs x < 2 ^ 63 }
    ensures { result ≡ trunc x (2 ^ k) }
{
    if x < 0 { -(-x >> k) } else { x >> k }
}

/// The product, which fits where the magnitudes' product is below 2^63.
pub fn times(a: i64, b: i64) -> i64
    requires { unsigned_abs a * unsigned_abs b < 2 ^ 63 }
    ensures value { result ≡ a *ℤ b }
    ensures size { unsigned_abs result ≡ unsigned_abs a * unsigned_abs b }
{
    a * b
}
