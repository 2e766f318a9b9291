//! Values: a decimal with a unit.

ghost use Rattle.std.specs.Prelude.{◌≡◌, ◌+ℤ◌, ◌≤ℤ◌, ◌≤◌, FitsSigned, IfOk, IfSome, length, negsuc, pos, true};
ghost use Rattle.std.specs.List.{prefix_len};
ghost use Rattle.std.specs.Int.{w8};
ghost use Rattle.wdf_text.specs.Decimals.{is_decimal_byte};
ghost use Rattle.wdf_netlist.specs.Circuits.{IsElementValue};
ghost use Rattle.wdf_netlist.specs.Values.{HasScaled, HasValue, is_exponent, power_of_unit};

use crate::NetKind;
use wdf_text::{Quantity, decimal};

// How many bytes of the word are its decimal.
fn decimal_len(word: &[u8]) -> usize
    ensures value { result ≡ prefix_len is_decimal_byte word.now }
    ensures within { result ≤ length word.now }
{
    let mut len = 0;
    while len < word.len() && (word[len].is_ascii_digit() || word[len] == b'.') {
        len += 1;
    }
    len
}

// The power of ten of a unit.
fn power_of_unit(unit: &[u8]) -> Option<i8>
    ensures power { result ≡ power_of_unit unit.now }
    ensures small { IfSome result (λ p. FitsSigned w8 p) }
{
    match unit {
        [] => Some(0),
        [b'p'] => Some(-12),
        [b'n'] => Some(-9),
        [b'u'] => Some(-6),
        [b'm'] => Some(-3),
        [b'k'] => Some(3),
        [b'M'] => Some(6),
        _ => None,
    }
}

fn plus(one: i8, other: i8) -> i32
    ensures { result ≡ one +ℤ other }
{
    i32::from(one) + i32::from(other)
}

// Whether the exponent of a value is in range.
fn is_exponent(exp: i32) -> bool
    ensures is { result ≡ is_exponent exp }
    ensures low { result ≡ true → negsuc 17 ≤ℤ exp }
    ensures high { result ≡ true → exp ≤ℤ pos 9 }
    ensures small { result ≡ true → FitsSigned w8 exp }
{
    exp >= -18 && exp <= 9
}

// The number times this power of ten, as a value.
fn scaled(number: Quantity, power: i8) -> Result<Quantity, NetKind>
    requires { number.digits ≤ 999999999 }
    ensures scaled { HasScaled number power result }
    ensures value { IfOk result IsElementValue }
{
    if number.digits == 0 {
        return Err(NetKind::ZeroValue);
    }
    let exp = plus(number.exp, power);
    if !is_exponent(exp) {
        return Err(NetKind::BadValue);
    }
    Ok(Quantity {
        digits: number.digits,
        exp: exp as i8,
    })
}

/// The value that a word writes: its longest front of digits and dots, times the power of ten of the
/// unit behind it.
#[tactic(auto, using(crate::proofs::ValueLemmas::scaled_value))]
pub fn value_of(word: &[u8]) -> Result<Quantity, NetKind>
    ensures said { HasValue word.now result }
    ensures value { IfOk result IsElementValue }
{
    let (front, unit) = word.split_at(decimal_len(word));
    let Ok(number) = decimal(front) else {
        return Err(NetKind::BadValue);
    };
    let Some(power) = power_of_unit(unit) else {
        return Err(NetKind::UnknownUnit);
    };
    scaled(number, power)
}
