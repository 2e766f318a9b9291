ghost use Rattle.std.specs.Prelude.{◌≡◌, ◌<◌, ◌≤◌, ◌^◌, ◌*◌, ◌*ℤ◌, pos, unsigned_abs};
ghost use Rattle.wdf_algebra.specs.Truncation.{trunc};

use wdf_algebra::{quotient, times};

/// The width of a network's multipliers, which are counted in units of `1/q`.
#[derive(Clone, Copy)]
pub(crate) struct Width {
    pub(crate) k: u32,
    pub(crate) q: u32,
    ghost few: { k ≤ 20 },
    ghost unit: { q ≡ 2 ^ k },
}

impl Width {
    pub(crate) fn new(k: u8) -> Width
        requires { k ≤ 20 }
        ensures { result.q ≡ 2 ^ k }
    {
        let k = u32::from(k);
        Width { k, q: 1 << k }
    }

    // A value in units of 1/q in whole units, towards zero.
    pub(crate) fn truncated(self, value: i64) -> i64
        requires { unsigned_abs value < 2 ^ 63 }
        ensures { result ≡ trunc value self.q }
    {
        quotient(value, self.k)
    }
}
