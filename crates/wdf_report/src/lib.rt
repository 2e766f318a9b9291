//! The answers of the program: what each holds, its exit status and its fault line.
//!
//! A [`Status`] is what the top call answers. [`Status::code`] is the exit status that stands for it, and
//! [`fault_line`] the line that says why the program did not do its work. `docs/report.md` tells each of
//! them by example.
#![tactic(auto)]

mod fault_lines;
mod kind_names;
mod status;
#[cfg(test)]
mod tests;
mod usage_kind;

pub use fault_lines::{fault_line, push_branch, push_wide};
pub use status::Status;
pub use usage_kind::UsageKind;
