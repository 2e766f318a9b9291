ghost use Rattle.std.specs.Prelude.{◌≡◌, ◌≤◌, ◌^◌, ◌-◌, pos, unsigned_abs, if◌then◌else◌, int_lt};
ghost use Rattle.wdf_algebra.specs.Truncation.{trunc};

use crate::rounding::power;

// The sign's bits within a whole unit of 2^K: what is missing in a number rounded down.
fn sign_mask<const K: u32>(x: i64) -> i64
    requires few { K ≤ 20 }
    requires size { unsigned_abs x ≤ 2 ^ 62 }
    ensures { result ≡ (if int_lt x (pos 0) then pos (2 ^ K - 1) else pos 0) }
{
    (x >> 63) & (power::<K>() - 1)
}

/// The quotient of `x` by `2^K`, truncated towards zero, without a branch.
pub fn quotient_by_mask<const K: u32>(x: i64) -> i64
    requires few { K ≤ 20 }
    requires size { unsigned_abs x ≤ 2 ^ 62 }
    ensures { result ≡ trunc x (2 ^ K) }
{
    (x + sign_mask::<K>(x)) >> K
}
