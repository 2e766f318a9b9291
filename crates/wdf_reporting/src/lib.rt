//! The texts that a run tells beside its wave: the report, the counts and the lines of the ledger.
//!
//! [`report`] writes the report of a netlist: [`report_head`], and then [`circuit_text`] of each of its
//! circuits. [`count_lines`] and [`ledger_line`] write what follows of a run. `docs/report.md` tells
//! each line by example; `specs/ReportText`, `specs/CountLines` and `specs/LedgerLine` have the texts.
#![tactic(auto)]

mod bound_lookup;
mod certifying;
mod circuit;
mod elements;
mod head;
mod junctions;
pub mod laws;
mod lines;
mod pieces;
mod port_lines;
mod reporting;
#[cfg(test)]
mod tests;

pub use certifying::is_certified;
pub use circuit::circuit_text;
pub use head::report_head;
pub use lines::{count_lines, ledger_line};
pub use reporting::report;
