//! Whole numbers in decimal digits.

ghost use Rattle.std.specs.Prelude.{◌≡◌, ◌↔◌, IfSome, IsSome};
ghost use Rattle.wdf_text.specs.Numbers.{IsWholeNumber, number_of};

/// The number that 1 to 20 decimal digits write. Zeros may stand in front.
///
/// None where the text is anything else, or where its number does not fit 64 bits.
pub fn whole(text: &[u8]) -> Option<u64>
    ensures read { IsSome result ↔ IsWholeNumber text.now }
    ensures value { IfSome result (λ n. n ≡ number_of text.now) }
{
    if text.is_empty() || text.len() > 20 {
        return None;
    }
    let mut value: u128 = 0;
    for byte in text {
        if !byte.is_ascii_digit() {
            return None;
        }
        value = 10 * value + u128::from(*byte - b'0');
    }
    u64::try_from(value).ok()
}
