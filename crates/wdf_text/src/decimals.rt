//! Decimal numbers with at most one dot.

ghost use Rattle.std.specs.Prelude.{◌≡◌, ◌↔◌, ◌+◌, ◌<◌, ◌≤◌, ◌%◌, ◌+ℤ◌, pos, ℕ, IfOk, IsOk, MatchOption, Err, is_ok, length, position};
ghost use Rattle.wdf_text.specs.Decimals.{Answers, HasBadByte, HasNoDigit, HasNoStray, HasTooManyDigits, IsDecimal, IsFirstStray, IsTooLong, IsValueOf, digit_bytes, has_digit, is_decimal, is_dot, number_in, places, significant_digits};
ghost use Rattle.wdf_text.specs.DecimalNumber.{DecimalNumber, IsNormal};
ghost use Rattle.wdf_text.specs.Numbers.{digits_of_bytes};
ghost use Rattle.wdf_text.specs.Significance.{IsSignificant};

use crate::decimal_error::DecimalError;
use crate::quantity::Quantity;
use crate::significant::Significant;

// The first byte that is neither a digit nor the first dot.
fn stray(text: &[u8]) -> Option<usize>
    ensures { MatchOption result (HasNoStray text.now) (IsFirstStray text.now) }
{
    let mut dotted = false;
    for (at, byte) in text.iter().enumerate() {
        if !byte.is_ascii_digit() {
            if *byte != b'.' || dotted {
                return Some(at);
            }
            dotted = true;
        }
    }
    None
}

// Whether there is a digit.
fn has_digit(text: &[u8]) -> bool
    ensures { result ≡ has_digit text.now }
{
    text.iter().any(|byte| byte.is_ascii_digit())
}

// The offset of the first dot.
fn dot(text: &[u8]) -> Option<usize>
    ensures { result ≡ position is_dot text.now }
{
    text.iter().position(|byte| *byte == b'.')
}

// How many bytes stand behind the first dot.
fn places(text: &[u8]) -> usize
    ensures { result ≡ places text.now }
{
    match dot(text) {
        Some(at) => text.len() - at - 1,
        None => 0,
    }
}

// The significant digits; None where they are more than 9.
fn significant(text: &[u8]) -> Option<Significant>
    requires { length text.now ≤ 40 }
    ensures { MatchOption result (9 < significant_digits text.now) (λ s. IsSignificant (digits_of_bytes (digit_bytes text.now)) s.digits s.count s.zeros) }
{
    let mut read = Significant {
        digits: 0,
        count: 0,
        zeros: 0,
    };
    for byte in text {
        if byte.is_ascii_digit() {
            read = read.with(*byte - b'0')?;
        }
    }
    Some(read)
}

// The quantity of these digits, so many of which stand behind the dot.
fn quantity(read: Significant, places: usize) -> Quantity
    requires zeros { read.zeros ≤ 40 }
    requires places { places ≤ 40 }
    requires last { 0 < read.digits → 0 < read.digits % 10 }
    ensures digits { result.digits ≡ read.digits }
    ensures exp { 0 < read.digits → pos read.zeros ≡ result.exp +ℤ pos places }
    ensures zero { read.digits ≡ 0 → result.exp ≡ pos 0 }
    ensures normal { IsNormal result }
{
    if read.digits == 0 {
        return Quantity { digits: 0, exp: 0 };
    }
    Quantity {
        digits: read.digits,
        exp: read.zeros as i8 - places as i8,
    }
}

// The quantity that the text writes, or why there is none.
fn read_decimal(text: &[u8]) -> Result<Quantity, DecimalError>
    ensures answer { Answers text.now result }
    ensures normal { IfOk result IsNormal }
    ensures number { IfOk result (λ q. q ≡ number_in text.now) }
    ensures small { IfOk result (λ q. q.digits ≤ 999999999) }
{
    if text.len() > 40 {
        return Err(DecimalError::TooLong);
    }
    if let Some(at) = stray(text) {
        return Err(DecimalError::BadByte { at });
    }
    if !has_digit(text) {
        return Err(DecimalError::Empty);
    }
    match significant(text) {
        Some(read) => Ok(quantity(read, places(text))),
        None => Err(DecimalError::TooManyDigits),
    }
}

/// The number that decimal digits with at most one dot write, exactly, in its one form.
///
/// Zeros may stand in front and behind, and the dot at either end.
///
/// # Errors
///
/// The first cause that is there, in the order of the variants of [`DecimalError`].
pub fn decimal(text: &[u8]) -> Result<Quantity, DecimalError>
    ensures read { IsOk result ↔ IsDecimal text.now }
    ensures value { IfOk result (IsValueOf text.now) }
    ensures small { IfOk result (λ q. q.digits ≤ 999999999) }

    // The same as a test and as a function of the text.
    ensures test { is_ok result ≡ is_decimal text.now }
    ensures number { IfOk result (λ q. q ≡ number_in text.now) }

    // No other number in its one form is that of the text.
    ensures normal { IfOk result IsNormal }
    ensures one_form { (p : DecimalNumber) → IsNormal p → IsValueOf text.now p → IfOk result (λ q. p ≡ q) }

    // Each refusal comes exactly where its cause is there, and none before it.
    ensures too_long { (result ≡ Err DecimalError.TooLong) ↔ IsTooLong text.now }
    ensures bad_byte { (at : ℕ) → (result ≡ Err (DecimalError.BadByte at)) ↔ HasBadByte text.now at }
    ensures empty { (result ≡ Err DecimalError.Empty) ↔ HasNoDigit text.now }
    ensures too_many_digits { (result ≡ Err DecimalError.TooManyDigits) ↔ HasTooManyDigits text.now }
{
    read_decimal(text)
}
