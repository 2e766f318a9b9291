//! The summary's text.

ghost use Rattle.std.specs.Prelude.{◌≡◌, ◌++◌, ◌∷◌, [], OnOk, IfOk, codes, decimal};
ghost use Rattle.std.specs.Fmt.{signed_decimal};
ghost use Rattle.wdf_reporting.specs.ReportText.{states_line};
ghost use Rattle.wdf_soak.specs.Summary.{figures_line, summary_text};

use crate::figures::Figures;
use itoa::Buffer;
use std::alloc::{AllocError, Global};
use wdf_energy::Totals;
use wdf_law::{Net, Side};
use wdf_reporting::{count_lines, ledger_line};

// A label and the word behind it.
fn push_word(out: &mut Vec<u8>, label: &[u8], word: &[u8]) -> Result<(), AllocError>
    ensures { OnOk result (out.new.items ≡ out.old.items ++ label.now ++ word.now) }
{
    out.extend_from_slice(label)?;
    out.extend_from_slice(word)?;
    Ok(())
}

// A label and the number behind it.
fn push_number(out: &mut Vec<u8>, label: &[u8], n: u64) -> Result<(), AllocError>
    ensures { OnOk result (out.new.items ≡ out.old.items ++ label.now ++ decimal n) }
{
    push_word(out, label, Buffer::new().format(n).as_bytes())
}

// A label and the number behind it, which may be negative.
fn push_signed(out: &mut Vec<u8>, label: &[u8], n: i128) -> Result<(), AllocError>
    ensures { OnOk result (out.new.items ≡ out.old.items ++ label.now ++ signed_decimal n) }
{
    push_word(out, label, Buffer::new().format(n).as_bytes())
}

// The line of what was asked for.
fn push_order(out: &mut Vec<u8>, seed: u64, order: u8) -> Result<(), AllocError>
    ensures { OnOk result (out.new.items ≡ out.old.items ++ codes "soak seed " ++ decimal seed ++ codes " order " ++ decimal order ++ 10 ∷ []) }
{
    push_number(out, b"soak seed ", seed)?;
    push_number(out, b" order ", u64::from(order))?;
    out.push(b'\n')?;
    Ok(())
}

// The line of the states.
fn push_states(out: &mut Vec<u8>, net: &Net, certified: bool) -> Result<(), AllocError>
    ensures { OnOk result (out.new.items ≡ out.old.items ++ states_line net.now certified ++ 10 ∷ []) }
{
    push_number(out, b"states ", net.state_count() as u64)?;
    push_word(out, b" certified ", if certified { b"yes" } else { b"no" })?;
    out.push(b'\n')?;
    Ok(())
}

// The line of the figures.
fn push_figures(out: &mut Vec<u8>, figures: &Figures) -> Result<(), AllocError>
    ensures { OnOk result (out.new.items ≡ out.old.items ++ figures_line figures.now ++ 10 ∷ []) }
{
    push_signed(out, b"sum ", figures.sum)?;
    push_signed(out, b" least ", i128::from(figures.least))?;
    push_signed(out, b" greatest ", i128::from(figures.greatest))?;
    out.push(b'\n')?;
    Ok(())
}

/// The summary of a run: what was asked for, how many states the network has and whether it has a
/// certificate, the frames, how many output samples were limited, the figures of the output samples,
/// and where the energy went.
///
/// # Errors
///
/// Where no memory is left.
pub fn summary(
    alloc: Global,
    seed: u64,
    order: u8,
    net: &Net,
    certified: bool,
    frames: u32,
    clipped: u64,
    figures: &Figures,
    totals: &Totals,
) -> Result<Vec<u8>, AllocError>
    ensures { IfOk result (λ v. v.items ≡ summary_text seed order net.now certified frames clipped figures.now totals.now) }
{
    let mut out = Vec::new(alloc);
    push_order(&mut out, seed, order)?;
    push_states(&mut out, net, certified)?;
    out.extend_from_slice(count_lines(frames, clipped).as_bytes())?;
    push_figures(&mut out, figures)?;
    out.extend_from_slice(ledger_line(Side::Whole, 0, totals).as_bytes())?;
    Ok(out)
}
