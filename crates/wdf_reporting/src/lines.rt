//! The lines that follow a report: the counts and the ledger's.

ghost use Rattle.std.specs.Prelude.{◌≡◌};
ghost use Rattle.wdf_reporting.specs.CountLines.{count_text};
ghost use Rattle.wdf_reporting.specs.LedgerLine.{ledger_text};

use wdf_energy::Totals;
use wdf_law::Side;
use wdf_report::{push_branch, push_wide};
use wdf_text::Line;

/// The two lines that count the frames of a run and the output samples that were limited, over all
/// channels. They take no memory.
pub fn count_lines(frames: u32, clipped: u64) -> Line
    ensures { result ≡ count_text frames clipped }
{
    let mut lines = Line::new();
    push_wide(&mut lines, b"frames ", u128::from(frames));
    lines.push(b"\n");
    push_wide(&mut lines, b"clipped ", u128::from(clipped));
    lines.push(b"\n");
    lines
}

/// The line that tells where the energy of a channel's run went, in the circuit of a side, in units
/// of the square of a wave. Channels count from 0. It takes no memory.
pub fn ledger_line(side: Side, channel: usize, totals: &Totals) -> Line
    ensures { result ≡ ledger_text side channel totals.now }
{
    let mut line = Line::new();
    push_branch(&mut line, side);
    push_wide(&mut line, b"channel ", channel as u128);
    push_wide(&mut line, b" incident ", totals.incident);
    push_wide(&mut line, b" absorbed ", totals.absorbed);
    push_wide(&mut line, b" stored ", totals.stored);
    line.push(b"\n");
    line
}
