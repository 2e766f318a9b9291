ghost use Rattle.std.specs.Prelude.{◌≡◌, ◌≤◌, ◌-◌, ◌^◌, pos, ◌≤ℤ◌};
ghost use Rattle.wdf_algebra.specs.Samples.{IsSampleWidth, IsSampleValue};
ghost use Rattle.wdf_algebra.specs.Truncation.{trunc};
ghost use Rattle.wdf_law.specs.OutputRule.{limited, output_of};
ghost use Rattle.wdf_loop.specs.Limiting.{is_limited, is_outside};

/// An output sample.
#[derive(Clone, Copy, Debug, PartialEq, Eq)]
pub struct Limited {
    /// The sample's value.
    pub value: i64,

    /// Whether the wave came to a value outside the range, of which `value` is the nearest.
    pub limited: bool,
}

// The first value above those of `bits` bits.
fn limit_of(bits: u8) -> i64
    requires { IsSampleWidth bits }
    ensures value { result ≡ pos (2 ^ (bits - 1)) }
    ensures low { pos 128 ≤ℤ result }
    ensures high { result ≤ℤ pos (2 ^ 31) }
{
    match bits {
        8 => 128,
        16 => 32768,
        24 => 8388608,
        _ => 2147483648,
    }
}

// A step of the output, in units of the wave.
fn output_step(down: u8) -> i64
    requires { down ≤ 33 }
    ensures value { result ≡ pos (2 ^ down) }
    ensures positive { pos 1 ≤ℤ result }
{
    1 << down
}

// The wave in units of the output, towards zero: what a negative one is short of a whole step is added
// before it is rounded down.
fn scaled(w: i64, down: u8) -> i64
    requires { down ≤ 33 }
    ensures { result ≡ trunc w (2 ^ down) }
{
    if w < 0 {
        (w + (output_step(down) - 1)) >> down
    } else {
        w >> down
    }
}

// The nearest value of `bits` bits.
fn nearest(value: i64, bits: u8) -> i64
    requires { IsSampleWidth bits }
    ensures value { result ≡ limited bits value }
    ensures range { IsSampleValue bits result }
{
    let limit = limit_of(bits);
    if value >= limit {
        limit - 1
    } else if value < -limit {
        -limit
    } else {
        value
    }
}

// Whether no value of `bits` bits is this one.
fn is_beyond(value: i64, bits: u8) -> bool
    requires { IsSampleWidth bits }
    ensures { result ≡ is_outside bits value }
{
    let limit = limit_of(bits);
    value < -limit || value >= limit
}

/// The output sample of `bits` bits that the load wave `w` comes to: `w / 2^down`, truncated
/// towards zero, and limited to the values of that width, `-2^(bits-1)..=2^(bits-1) - 1`.
///
/// `w` is counted in units of `2^-down` of an output step; `down` is at most 33, and `bits` is 8,
/// 16, 24 or 32. A value that is limited is marked; one that only reaches a limit is not.
pub fn out_sample(w: i64, down: u8, bits: u8) -> Limited
    requires few { down ≤ 33 }
    requires width { IsSampleWidth bits }
    ensures value { result.value ≡ output_of down bits w }
    ensures limited { result.limited ≡ is_limited down bits w }
    ensures range { IsSampleValue bits result.value }
{
    let value = scaled(w, down);
    Limited {
        value: nearest(value, bits),
        limited: is_beyond(value, bits),
    }
}
