ghost use Rattle.std.specs.Prelude.{ℕ, ◌*◌, ◌^◌, ◌≤◌};

/// The square root of `n`, rounded up: the least whole number whose square is at least `n`.
pub fn isqrt_up(n: u128) -> u128
    ensures square { n ≤ result * result }
    ensures least { (m : ℕ) → n ≤ m * m → result ≤ m }
    ensures fits { result ≤ 2 ^ 64 }
{
    let root = n.isqrt();
    if root * root == n { root } else { root + 1 }
}
