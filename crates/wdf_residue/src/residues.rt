//! Sums, differences, products and inverses modulo P.

ghost use Rattle.std.specs.Prelude.{◌≡◌, ◌+◌, ◌*◌, ◌%◌, ◌<◌, ◌-ℤ◌, pos};
ghost use Rattle.wdf_residue.specs.Residue.{prime, residue};

/// The modulus P = 2^61 - 1, a prime.
pub const PRIME: u64 = 2_305_843_009_213_693_951;

// P as the mask of the lowest 61 bits.
const MASK: u128 = 2_305_843_009_213_693_951;

// A number below 2·P, brought below P.
#[tactic(auto, using(crate::proofs::Reducing::reducing))]
fn reduced(n: u64) -> u64
    requires { n < 2 * prime }
    ensures value { result ≡ n % prime }
    ensures residue { result < prime }
{
    if n >= PRIME { n - PRIME } else { n }
}

// 2^61 is 1 modulo P, so a product's bits from the 61st on count as a number of ones.
#[tactic(auto, using(crate::proofs::Reducing::folding))]
fn folded(n: u128) -> u64
    requires { n < prime * prime }
    ensures value { result % prime ≡ n % prime }
    ensures few { result < 2 * prime }
{
    (n & MASK) as u64 + (n >> 61) as u64
}

/// `a + b` modulo P.
pub fn plus(a: u64, b: u64) -> u64
    requires first { a < prime }
    requires second { b < prime }
    ensures value { result ≡ (a + b) % prime }
    ensures residue { result < prime }
{
    reduced(a + b)
}

/// `a - b` modulo P.
#[tactic(auto, using(crate::proofs::Reducing::reducing))]
pub fn minus(a: u64, b: u64) -> u64
    requires first { a < prime }
    requires second { b < prime }
    ensures value { result ≡ residue (pos a -ℤ pos b) }
    ensures residue { result < prime }
{
    reduced(a + (PRIME - b))
}

/// `a · b` modulo P.
#[tactic(auto, using(crate::proofs::Reducing::reducing))]
pub fn times(a: u64, b: u64) -> u64
    requires first { a < prime }
    requires second { b < prime }
    ensures value { result ≡ (a * b) % prime }
    ensures residue { result < prime }
{
    reduced(folded(u128::from(a) * u128::from(b)))
}

/// The residue whose product with `a` is 1: `a` to the power of P - 2, by squarings.
pub fn inverse(a: u64) -> u64
    requires some { 0 < a }
    requires residue { a < prime }
    ensures product { (a * result) % prime ≡ 1 }
    ensures residue { result < prime }
{
    let mut power = 1;
    let mut square = a;
    let mut rest = PRIME - 2;
    while rest > 0 {
        if rest % 2 == 1 {
            power = times(power, square);
        }
        square = times(square, square);
        rest /= 2;
    }
    power
}
