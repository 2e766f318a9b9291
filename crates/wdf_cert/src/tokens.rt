//! The tokens of a text, one after the other. An offset stands for the text behind it.

ghost use Rattle.std.specs.Prelude.{◌≡◌, ◌-◌, ◌^◌, ◌<◌, ◌≤◌, ℕ, true, length, take, drop, decimal, MatchOption, MatchResult, IsTrue};
ghost use Rattle.std.specs.Char.{is_ascii_digit};
ghost use Rattle.std.specs.List.{list_all};
ghost use Rattle.wdf_cert.specs.Format.{word, mark, number, is_word_byte, ends_word, Misses};
ghost use Rattle.wdf_cert.specs.Scanning.{Takes};
ghost use Rattle.wdf_text.specs.Numbers.{number_of};

use crate::CertTextFault;
use itoa::Buffer;

// A number of a text, and the offset behind it.
#[derive(Clone, Copy)]
pub(crate) struct Number {
    pub(crate) value: u64,
    pub(crate) next: usize,
}

// A byte of a word.
fn is_word_byte(byte: u8) -> bool
    ensures { result ≡ is_word_byte byte }
{
    !(byte == b' ' || byte == b'\n')
}

// The offset behind the word that the text at an offset begins with.
#[tactic(auto, using(crate::proofs::TakenTokens::word_byte_more))]
fn word_end(text: &[u8], at: usize) -> usize
    requires { at ≤ length text.now }
    ensures order { at ≤ result }
    ensures within { result ≤ length text.now }
    ensures bytes { list_all is_word_byte (take (result - at) (drop at text.now)) ≡ true }
    ensures end { ends_word (drop result text.now) ≡ true }
{
    let mut end = at;
    while end < text.len() && is_word_byte(text[end]) {
        end += 1;
    }
    end
}

// Takes this word.
#[tactic(auto, using(crate::proofs::TakenTokens::word_tokens))]
pub(crate) fn take_word(text: &[u8], at: usize, want: &[u8]) -> Result<usize, CertTextFault>
    requires within { at ≤ length text.now }
    requires bytes { list_all is_word_byte want.now ≡ true }
    ensures { MatchResult result (Takes (word want.now) 0 text.now at) (Misses (word want.now) (drop at text.now) at) }
{
    let end = word_end(text, at);
    if &text[at..end] == want {
        Ok(end)
    } else {
        Err(CertTextFault::Syntax { at })
    }
}

// Takes a space or the end of a line.
#[tactic(auto, using(crate::proofs::TakenTokens::mark_tokens))]
pub(crate) fn take_mark(text: &[u8], at: usize, byte: u8) -> Result<usize, CertTextFault>
    requires within { at ≤ length text.now }
    ensures { MatchResult result (Takes (mark byte) 0 text.now at) (Misses (mark byte) (drop at text.now) at) }
{
    if at < text.len() && text[at] == byte {
        Ok(at + 1)
    } else {
        Err(CertTextFault::Syntax { at })
    }
}

// The number that at most 20 digits write, zeros in front among them; None where a byte is no digit
// or there are more.
#[tactic(auto, using(crate::proofs::TakenTokens::digits_small))]
fn digits_number(word: &[u8]) -> Option<u128>
    ensures { MatchOption result
        (list_all is_ascii_digit word.now ≡ true → 20 < length word.now)
        (λ n. (n ≡ number_of word.now) × (n < 10 ^ 20)) }
{
    if word.len() > 20 {
        return None;
    }
    let mut n: u128 = 0;
    for byte in word {
        if !byte.is_ascii_digit() {
            return None;
        }
        n = 10 * n + u128::from(*byte - b'0');
    }
    Some(n)
}

// The number of at most 20 digits whose decimal digits are the word.
#[tactic(auto, using(crate::proofs::TakenTokens::digits_read))]
fn number_in(word: &[u8]) -> Option<u128>
    ensures { MatchOption result
        ((v : ℕ) → v < 10 ^ 20 → word.now ≡ decimal v → ⊥)
        (λ n. (n < 10 ^ 20) × (word.now ≡ decimal n)) }
{
    let n = digits_number(word)?;
    if word == Buffer::new().format(n).as_bytes() {
        Some(n)
    } else {
        None
    }
}

// Takes a number in `low..=high`.
#[tactic(auto, using(crate::proofs::TakenTokens::number_tokens))]
pub(crate) fn take_number(
    text: &[u8],
    at: usize,
    low: u64,
    high: u64,
) -> Result<Number, CertTextFault>
    requires within { at ≤ length text.now }
    ensures { MatchResult result
        (λ n. Takes (number low high) n.value text.now at n.next)
        (Misses (number low high) (drop at text.now) at) }
{
    let end = word_end(text, at);
    let Some(n) = number_in(&text[at..end]) else {
        return Err(CertTextFault::Syntax { at });
    };
    if n < u128::from(low) || n > u128::from(high) {
        return Err(CertTextFault::Range { at });
    }
    Ok(Number {
        value: n as u64,
        next: end,
    })
}
