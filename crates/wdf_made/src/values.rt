//! The values of elements.

ghost use Rattle.std.specs.Prelude.{◌≡◌, ◌≤◌, ◌≤ℤ◌, pos, negsuc};
ghost use Rattle.wdf_made.specs.Ladder.{in_one_form, is_capacitor, value_from};

use wdf_text::Quantity;

// n · 10^exp in its one form.
fn in_one_form(n: u32, exp: i8) -> Quantity
    requires some { 1 ≤ n }
    requires few { n ≤ 999 }
    requires low { negsuc 8 ≤ℤ exp }
    requires high { exp ≤ℤ pos 0 }
    ensures { result ≡ in_one_form n exp }
{
    if n % 100 == 0 {
        Quantity {
            digits: u64::from(n / 100),
            exp: exp + 2,
        }
    } else if n % 10 == 0 {
        Quantity {
            digits: u64::from(n / 10),
            exp: exp + 1,
        }
    } else {
        Quantity {
            digits: u64::from(n),
            exp,
        }
    }
}

// Whether a capacitor stands at this place, counted from 0; else an inductor does.
pub(crate) fn is_capacitor(place: u8) -> bool
    ensures { result ≡ is_capacitor place }
{
    place % 2 == 0
}

// The value of the element at this place by its word: nanofarads or millihenries.
pub(crate) fn value_from(place: u8, word: u32) -> Quantity
    ensures { result ≡ value_from place word }
{
    if is_capacitor(place) {
        in_one_form(1 + word % 999, -9)
    } else {
        in_one_form(1 + word % 99, -3)
    }
}
