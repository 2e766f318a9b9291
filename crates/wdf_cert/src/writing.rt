//! The text of certificates, written.

ghost use Rattle.std.specs.Prelude.{◌≡◌, ◌<◌, ◌≤◌, ◌++◌, ◌∷◌, [], ℕ, List, length, take, drop, decimal, IfOk, OnOk};
ghost use Rattle.wdf_residue.specs.Matrix.{IsSquare};
ghost use Rattle.wdf_cert.specs.CertText.{cert_text, spaced, counted, number_line, number_lines};

use std::alloc::{AllocError, Global};
use wdf_check::Cert;
use wdf_text::{push_line, push_u128};

// A space and then the number.
fn push_spaced(out: &mut Vec<u8>, number: u64) -> Result<(), AllocError>
    ensures { OnOk result (out.new.items ≡ out.old.items ++ 32 ∷ decimal number) }
{
    out.push(b' ')?;
    push_u128(out, u128::from(number))?;
    Ok(())
}

// A line of a word, how many numbers there are, and the numbers.
#[tactic(auto, using(crate::proofs::WritingLemmas::counted_writing))]
fn push_counted(out: &mut Vec<u8>, word: &[u8], numbers: &[u32]) -> Result<(), AllocError>
    ensures { OnOk result ((rest : List ℕ) → out.new.items ++ rest ≡ out.old.items ++ counted word.now numbers.now rest) }
{
    out.extend_from_slice(word)?;
    push_spaced(out, numbers.len() as u64)?;
    for number in numbers {
        push_spaced(out, u64::from(*number))?;
    }
    out.push(b'\n')?;
    Ok(())
}

// A line of numbers, of which there is one at least.
#[tactic(auto, using(crate::proofs::WritingLemmas::line_writing))]
fn push_numbers(out: &mut Vec<u8>, numbers: &[u64]) -> Result<(), AllocError>
    requires { 1 ≤ length numbers.now }
    ensures { OnOk result ((rest : List ℕ) → out.new.items ++ rest ≡ out.old.items ++ number_line numbers.now rest) }
{
    push_u128(out, u128::from(numbers[0]))?;
    for i in 1..numbers.len() {
        push_spaced(out, numbers[i])?;
    }
    out.push(b'\n')?;
    Ok(())
}

// The lines of a square matrix that is written row by row.
#[tactic(auto, using(crate::proofs::WritingLemmas::lines_writing))]
fn push_square(out: &mut Vec<u8>, n: usize, entries: &[u64]) -> Result<(), AllocError>
    requires { IsSquare n entries.now }
    ensures { OnOk result ((rest : List ℕ) → out.new.items ++ rest ≡ out.old.items ++ number_lines n n entries.now rest) }
{
    let mut left = entries;
    for i in 0..n {
        push_numbers(out, &left[..n])?;
        left = &left[n..];
    }
    Ok(())
}

/// The text of a certificate. [`read`](crate::read) takes it where its numbers are in their ranges.
///
/// # Errors
///
/// Where no memory is left.
pub fn write(alloc: Global, cert: &Cert) -> Result<Vec<u8>, AllocError>
    ensures { IfOk result (λ text. text.items ≡ cert_text cert.now) }
{
    let mut out = Vec::new(alloc);
    push_line(&mut out, b"wdfcert 1")?;
    out.push(b'k')?;
    push_spaced(&mut out, u64::from(cert.k()))?;
    out.push(b'\n')?;
    push_counted(&mut out, b"multipliers", cert.multipliers())?;
    push_counted(&mut out, b"rows", cert.rows())?;
    push_line(&mut out, b"inverse")?;
    push_square(&mut out, cert.rows().len(), cert.inverse())?;
    push_line(&mut out, b"end")?;
    Ok(out)
}
