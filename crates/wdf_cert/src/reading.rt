//! Certificates read from their text.

ghost use Rattle.std.specs.Prelude.{◌≡◌, ◌-◌, ◌^◌, ◌≤◌, ◌<◌, ◌++◌, ◌∷◌, ℕ, true, All, length, codes, MatchResult, IfOk, IfErr};
ghost use Rattle.std.specs.List.{list_all};
ghost use Rattle.std.specs.declared.option.Option.{Option};
ghost use Rattle.wdf_check.specs.Certificate.{Certificate};
ghost use Rattle.wdf_cert.specs.declared.cert_text_fault.CertTextFault.TheVariants.{NoMemory};
ghost use Rattle.wdf_cert.specs.Format.{is_word_byte};
ghost use Rattle.wdf_cert.specs.CertText.{line, file_text, AreInRange, AreSquare};
ghost use Rattle.wdf_cert.specs.CertFormat.{word_mark, spaced_numbers, counted_numbers, residue_line, residue_lines, head_format, inverse_format, cert_format, ReadsFile};
ghost use Rattle.wdf_cert.specs.Scanning.{Reads, ReadsSpaced, ReadsCounted, ReadsLine, ReadsLines, ReadsHead, ReadsInverse, ReadsCert, Fails, plain_part};

use crate::tokens::{Number, take_mark, take_number, take_word};
use crate::{CertTextFault, Certs};
use std::alloc::{AllocError, Global};
use wdf_check::Cert;
use wdf_residue::PRIME;

// Numbers of a text, and the offset behind them.
#[derive(Drop)]
struct Numbers {
    values: Vec<u64>,
    next: usize,
}

// A certificate of a text, and the offset behind it.
#[derive(Drop)]
struct ReadCert {
    cert: Cert,
    next: usize,
}

// Takes a word and the byte behind it.
#[tactic(auto, using(crate::proofs::ReadingLemmas::word_reading))]
fn read_word(text: &[u8], at: usize, want: &[u8], byte: u8) -> Result<usize, CertTextFault>
    requires within { at ≤ length text.now }
    requires bytes { list_all is_word_byte want.now ≡ true }
    ensures { MatchResult result
        (λ next. Reads (plain_part (word_mark want.now byte)) 0 (λ rest. want.now ++ byte ∷ rest) text.now at next)
        (Fails (plain_part (word_mark want.now byte)) text.now at) }
{
    let next = take_word(text, at, want)?;
    let next = take_mark(text, next, byte)?;
    Ok(next)
}

// Takes so many numbers in `low..=high`, a space before each.
#[tactic(auto, using(crate::proofs::ReadingLemmas::spaced_reading))]
fn read_spaced(
    alloc: Global,
    text: &[u8],
    at: usize,
    count: usize,
    low: u64,
    high: u64,
) -> Result<Numbers, CertTextFault>
    requires within { at ≤ length text.now }
    ensures { MatchResult result
        (λ n. ReadsSpaced count low high n.values.items text.now at n.next)
        (Fails (plain_part (spaced_numbers count low high)) text.now at) }
{
    let mut values = Vec::new(alloc);
    let mut place = at;
    for i in 0..count {
        let blank = take_mark(text, place, b' ')?;
        let number = take_number(text, blank, low, high)?;
        values.push(number.value)?;
        place = number.next;
    }
    Ok(Numbers {
        values,
        next: place,
    })
}

// Takes a line of a word, a count in `least..=most` and so many numbers in `low..=high`.
#[tactic(auto, using(crate::proofs::ReadingLemmas::counted_reading))]
fn read_counted(
    alloc: Global,
    text: &[u8],
    at: usize,
    want: &[u8],
    least: u64,
    most: u64,
    low: u64,
    high: u64,
) -> Result<Numbers, CertTextFault>
    requires within { at ≤ length text.now }
    requires bytes { list_all is_word_byte want.now ≡ true }
    ensures { MatchResult result
        (λ n. ReadsCounted want.now least most low high n.values.items text.now at n.next)
        (Fails (counted_numbers want.now least most low high) text.now at) }
{
    let next = read_word(text, at, want, b' ')?;
    let count = take_number(text, next, least, most)?;
    let numbers = read_spaced(alloc, text, count.next, count.value as usize, low, high)?;
    let next = take_mark(text, numbers.next, b'\n')?;
    Ok(Numbers {
        values: numbers.values,
        next,
    })
}

// Takes a line of `n` residues.
#[tactic(auto, using(crate::proofs::ReadingLemmas::line_reading))]
fn read_line(alloc: Global, text: &[u8], at: usize, n: usize) -> Result<Numbers, CertTextFault>
    requires within { at ≤ length text.now }
    requires some { 1 ≤ n }
    ensures { MatchResult result
        (λ line. ReadsLine n line.values.items text.now at line.next)
        (Fails (plain_part (residue_line n)) text.now at) }
{
    let first = take_number(text, at, 0, PRIME - 1)?;
    let others = read_spaced(alloc, text, first.next, n - 1, 0, PRIME - 1)?;
    let next = take_mark(text, others.next, b'\n')?;
    let mut values = Vec::new(alloc);
    values.push(first.value)?;
    values.extend_from_slice(&others.values)?;
    Ok(Numbers { values, next })
}

// Takes `n` lines of `n` residues each.
#[tactic(auto, using(crate::proofs::ReadingLemmas::lines_reading))]
fn read_lines(alloc: Global, text: &[u8], at: usize, n: usize) -> Result<Numbers, CertTextFault>
    requires within { at ≤ length text.now }
    ensures { MatchResult result
        (λ lines. ReadsLines n n lines.values.items text.now at lines.next)
        (Fails (plain_part (residue_lines n n)) text.now at) }
{
    let mut values = Vec::new(alloc);
    let mut place = at;
    for i in 0..n {
        let line = read_line(alloc, text, place, n)?;
        values.extend_from_slice(&line.values)?;
        place = line.next;
    }
    Ok(Numbers {
        values,
        next: place,
    })
}

// Takes the head, up to the width of the multipliers.
#[tactic(auto, using(crate::proofs::ReadingLemmas::head_reading))]
fn read_head(text: &[u8], at: usize) -> Result<Number, CertTextFault>
    requires { at ≤ length text.now }
    ensures { MatchResult result (λ n. ReadsHead n.value text.now at n.next) (Fails head_format text.now at) }
{
    let next = read_word(text, at, b"wdfcert", b' ')?;
    let next = read_word(text, next, b"1", b'\n')?;
    let next = read_word(text, next, b"k", b' ')?;
    let width = take_number(text, next, 1, 20)?;
    let next = take_mark(text, width.next, b'\n')?;
    Ok(Number {
        value: width.value,
        next,
    })
}

// Takes the inverse of `n` lines and the end.
#[tactic(auto, using(crate::proofs::ReadingLemmas::inverse_reading))]
fn read_inverse(alloc: Global, text: &[u8], at: usize, n: usize) -> Result<Numbers, CertTextFault>
    requires { at ≤ length text.now }
    ensures { MatchResult result
        (λ inverse. ReadsInverse n inverse.values.items text.now at inverse.next)
        (Fails (plain_part (inverse_format n)) text.now at) }
{
    let next = read_word(text, at, b"inverse", b'\n')?;
    let lines = read_lines(alloc, text, next, n)?;
    let next = read_word(text, lines.next, b"end", b'\n')?;
    Ok(Numbers {
        values: lines.values,
        next,
    })
}

// The numbers as words of 32 bits.
fn narrowed(alloc: Global, values: &[u64]) -> Result<Vec<u32>, AllocError>
    requires { All (λ (n : ℕ). n < 2 ^ 32) values.now }
    ensures { IfOk result (λ v. v.items ≡ values.now) }
{
    let mut words = Vec::with_capacity(alloc, values.len())?;
    for value in values {
        words.push(*value as u32)?;
    }
    Ok(words)
}

// The greatest multiplier of k bits.
fn most(k: u64) -> u64
    requires { k ≤ 20 }
    ensures { result ≡ 2 ^ k - 1 }
{
    (1 << k) - 1
}

// Takes a certificate.
#[tactic(auto, using(crate::proofs::CertReading::cert_reading))]
fn read_cert(alloc: Global, text: &[u8], at: usize) -> Result<ReadCert, CertTextFault>
    requires { at ≤ length text.now }
    ensures { MatchResult result
        (λ read. ReadsCert read.cert text.now at read.next)
        (Fails (plain_part cert_format) text.now at) }
{
    let width = read_head(text, at)?;
    let multipliers = read_counted(
        alloc,
        text,
        width.next,
        b"multipliers",
        1,
        127,
        1,
        most(width.value),
    )?;
    let rows = read_counted(alloc, text, multipliers.next, b"rows", 0, 64, 0, 8191)?;
    let inverse = read_inverse(alloc, text, rows.next, rows.values.len())?;
    let cert = Cert::new(
        width.value as u8,
        narrowed(alloc, &multipliers.values)?,
        narrowed(alloc, &rows.values)?,
        inverse.values,
    );
    Ok(ReadCert {
        cert: cert.unwrap(),
        next: inverse.next,
    })
}

/// The certificates of a file: the text of one, or of two directly after each other.
///
/// # Errors
///
/// [`CertTextFault::Syntax`] or [`CertTextFault::Range`] at the first token that is not the expected
/// one, as a number that is out of its range; or want of memory.
#[tactic(auto, using(crate::proofs::CertReading::file_reading))]
pub fn read(alloc: Global, text: &[u8]) -> Result<Certs, CertTextFault>
    ensures answer { ReadsFile text.now result }

    // Nothing but memory is in the way of a file of certificates.
    ensures accepted { (first : Certificate) (second : Option Certificate) → AreInRange first second → AreSquare first second
        → text.now ≡ file_text first second → IfErr result (λ e. e ≡ CertTextFault.NoMemory) }
{
    let first = read_cert(alloc, text, 0)?;
    if first.next == text.len() {
        return Ok(Certs {
            first: first.cert,
            second: None,
        });
    }
    let second = read_cert(alloc, text, first.next)?;
    if second.next != text.len() {
        return Err(CertTextFault::Syntax { at: second.next });
    }
    Ok(Certs {
        first: first.cert,
        second: Some(second.cert),
    })
}
