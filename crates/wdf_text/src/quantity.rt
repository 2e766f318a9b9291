use std::marker::Model;

/// A decimal number that is not negative, `digits · 10^exp`.
///
/// It is 0 with exponent 0, or `digits` is not divisible by 10; so each number has one form.
#[derive(Clone, Copy, Debug, PartialEq, Eq)]
pub struct Quantity {
    /// Not divisible by 10, or 0.
    pub digits: u64,
    /// The power of ten, 0 where `digits` is 0.
    pub exp: i8,
}

impl Model for Quantity {
    ghost use Rattle.wdf_text.specs.DecimalNumber.{DecimalNumber, IsNormal};

    ghost Value = { DecimalNumber };

    ghost view = { λ q. record { digits = q.digits; exp = q.exp } };

    ghost invariant = { λ q. IsNormal (record { digits = q.digits; exp = q.exp }) };

    ghost inverse = { λ q. record { digits = q.digits; exp = q.exp } };
}
