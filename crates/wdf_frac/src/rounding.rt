// Quotients times a power of ten, rounded, without the wide numbers in between.
ghost use Rattle.std.specs.Prelude.{◌≡◌, ◌*◌, ◌/◌, ◌^◌, ◌<◌, ◌≤◌, min, unsigned_abs};
ghost use Rattle.wdf_frac.specs.Units.{units_of};

// Half units in 1: a unit is 2^-40.
const HALF_UNITS: u128 = 1 << 41;

// Where long division stops to count.
const LIMIT: u128 = 1 << 64;

// The nearest whole number, half up, to 2^40·num·10^tens/den, up to 2^63: where one of the two is
// more, so is the other.
pub(crate) fn rounded(num: u128, den: u128, tens: i32) -> u128
    requires num { num < 2 ^ 64 }
    requires den { den < 2 ^ 100 }
    requires nonzero { 0 < den }
    requires tens { unsigned_abs tens ≤ 60 }
    ensures { min result (2 ^ 63) ≡ min (units_of num den tens) (2 ^ 63) }
{
    let half_units = num * HALF_UNITS;
    if tens < 0 {
        shifted_right(half_units / den, tens.unsigned_abs()).div_ceil(2)
    } else {
        shifted_left(half_units, den, tens.unsigned_abs()).div_ceil(2)
    }
}

// The floor of value·10^tens/den, or 2^64 where that is less: long division, a digit at a time.
fn shifted_left(value: u128, den: u128, tens: u32) -> u128
    requires value { value < 2 ^ 105 }
    requires den { den < 2 ^ 100 }
    requires nonzero { 0 < den }
    ensures { result ≡ min (value * 10 ^ tens / den) (2 ^ 64) }
{
    let mut whole = (value / den).min(LIMIT);
    let mut rest = value % den;
    'tens: for _ in 0..tens {
        whole = (10 * whole + 10 * rest / den).min(LIMIT);
        rest = 10 * rest % den;
    }
    whole
}

// The floor of whole/10^tens.
fn shifted_right(mut whole: u128, tens: u32) -> u128
    ensures { result ≡ whole / 10 ^ tens }
{
    'tens: for _ in 0..tens {
        whole /= 10;
    }
    whole
}
