ghost use Rattle.std.specs.Int.{IsGcd};

/// The greatest common divisor of `a` and `b`: it divides both, and each number that divides both
/// divides it. So `gcd(a, 0)` is `a`, and `gcd(0, 0)` is 0.
pub fn gcd(a: u128, b: u128) -> u128
    ensures { IsGcd a b result }
{
    let mut x = a;
    let mut y = b;
    while y != 0 {
        let rest = x % y;
        x = y;
        y = rest;
    }
    x
}
