ghost use Rattle.std.specs.Prelude.{◌≡◌, ◌*◌, ◌^◌, ◌<◌, ◌↔◌, IsSome, IfSome};
ghost use Rattle.std.specs.Int.{div_ceil};

/// The quotient `a·b/c`, rounded up. `c` may not be 0.
///
/// It is `None` exactly where the product `a·b` needs more than 128 bits.
pub fn mul_div_up(a: u128, b: u128, c: u128) -> Option<u128>
    requires { 0 < c }
    ensures value { IfSome result (λ quotient. quotient ≡ div_ceil (a * b) c) }
    ensures some { IsSome result ↔ (a * b < 2 ^ 128) }
{
    Some(a.checked_mul(b)?.div_ceil(c))
}
