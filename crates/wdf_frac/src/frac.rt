ghost use Rattle.std.specs.Prelude.{◌≡◌, ℕ, ◌*◌, ◌^◌, ◌<◌, ◌≤◌, ◌⊎◌, ◌↔◌, ⊤, IfOk, IsOkUnless, unsigned_abs};
ghost use Rattle.wdf_frac.specs.Fraction.{IsLowest, IsQuotient, IsWithin, IsProduct, IsProductTooWide};
ghost use Rattle.wdf_frac.specs.Units.{units_of, HasUnitsOf, IfAt};

use crate::rounding::rounded;
use crate::{FracError, Scaled, gcd};
use std::marker::Model;

/// A positive fraction. It keeps its lowest terms: no number but 1 divides both of its parts, so
/// two fractions of one value are equal.
#[derive(Clone, Copy, Debug, PartialEq, Eq)]
pub struct Frac {
    num: u128,
    den: u128,
}

impl Model for Frac {
    ghost use Rattle.wdf_frac.specs.Fraction.{Fraction, IsLowest};

    ghost Value = { Fraction };

    ghost view = { λ f. record { num = f.num; den = f.den } };

    ghost invariant = { λ f. IsLowest (record { num = f.num; den = f.den }) };

    ghost inverse = { λ f. record { num = f.num; den = f.den } };
}

impl Frac {
    /// The fraction `num/den`, brought to lowest terms.
    ///
    /// It is refused with [`FracError::ZeroPart`] exactly where a part is 0.
    pub fn new(num: u128, den: u128) -> Result<Frac, FracError>
        ensures value { IfOk result (λ f. IsQuotient f num den) }
        ensures lowest { IfOk result (λ f. IsLowest f) }
        ensures within { IfOk result (λ f. IsWithin f num den) }
        ensures units { IfOk result (λ f. HasUnitsOf f num den) }
        ensures zero_part { (result ≡ Err FracError.ZeroPart) ↔ (num ≡ 0 ⊎ den ≡ 0) }
        ensures only_error { IsOkUnless result FracError.ZeroPart }
    {
        if num == 0 || den == 0 {
            return Err(FracError::ZeroPart);
        }
        Ok(lowest(num, den))
    }

    /// The numerator, in lowest terms.
    pub fn num(&self) -> u128
        ensures value { result ≡ self.now.num }
        ensures lowest { IsLowest self.now }
    {
        self.num
    }

    /// The denominator, in lowest terms.
    pub fn den(&self) -> u128
        ensures value { result ≡ self.now.den }
        ensures lowest { IsLowest self.now }
    {
        self.den
    }

    /// The product of two fractions.
    ///
    /// It is refused with [`FracError::TooWide`] exactly where, in lowest terms, a part of it does
    /// not fit 128 bits: common factors are cancelled before anything is multiplied.
    pub fn mul(&self, other: &Frac) -> Result<Frac, FracError>
        ensures product { IfOk result (λ f. IsProduct self.now other.now f) }
        ensures within { IfOk result (λ f.
            IsWithin f (self.now.num * other.now.num) (self.now.den * other.now.den)) }
        ensures units { IfOk result (λ f.
            HasUnitsOf f (self.now.num * other.now.num) (self.now.den * other.now.den)) }
        ensures too_wide { (result ≡ Err FracError.TooWide) ↔ IsProductTooWide self.now other.now }
        ensures only_error { IsOkUnless result FracError.TooWide }
    {
        // No factor of a numerator is left in a denominator, neither in its own nor in the other.
        let across = lowest(self.num, other.den);
        let back = lowest(other.num, self.den);
        let Some(num) = across.num().checked_mul(back.num()) else {
            return Err(FracError::TooWide);
        };
        let Some(den) = across.den().checked_mul(back.den()) else {
            return Err(FracError::TooWide);
        };
        Ok(Frac { num, den })
    }

    /// The nearest whole number, half up, to `2^40·num·10^tens/den`: the fraction times `10^tens`,
    /// in units of 2^-40. It is exact, however wide the numbers in between would be.
    ///
    /// The numerator has to be below 2^64, the denominator below 2^100 and `tens` in -60..=60. The
    /// answer is [`Scaled::Low`] exactly where the number is 0, and [`Scaled::High`] exactly where
    /// it exceeds 2^62.
    pub fn scaled(&self, tens: i32) -> Scaled
        requires num { self.now.num < 2 ^ 64 }
        requires den { self.now.den < 2 ^ 100 }
        requires tens { unsigned_abs tens ≤ 60 }
        ensures low { (result ≡ Scaled.Low) ↔ (units_of self.now.num self.now.den tens ≡ 0) }
        ensures high { (result ≡ Scaled.High) ↔ (2 ^ 62 < units_of self.now.num self.now.den tens) }
        ensures at { IfAt result (λ y.
            (y ≡ units_of self.now.num self.now.den tens) × (1 ≤ y) × (y ≤ 2 ^ 62)) }
    {
        let units = rounded(self.num(), self.den(), tens);
        if units == 0 {
            Scaled::Low
        } else if units > 1 << 62 {
            Scaled::High
        } else {
            Scaled::At(units as u64)
        }
    }
}

// num/den in lowest terms.
fn lowest(num: u128, den: u128) -> Frac
    requires num { 0 < num }
    requires den { 0 < den }
    ensures value { IsQuotient result num den }
    ensures lowest { IsLowest result }
    ensures within { IsWithin result num den }
    ensures units { HasUnitsOf result num den }
{
    let divisor = gcd(num, den);
    Frac {
        num: num / divisor,
        den: den / divisor,
    }
}
