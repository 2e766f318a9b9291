//! The words of the command line: what they ask for, or the first thing that is wrong with them.
//!
//! The first word is the command, and each further word is `name=value`. [`read_words`] gives the
//! [`Order`] that they are, and takes no memory.
#![tactic(auto)]

mod command;
mod given;
pub mod laws;
mod operands;
mod order;
mod reading;
#[cfg(test)]
mod tests;
mod usage_fault;
mod values;
mod word;

pub use command::Command;
pub use given::file_name;
pub use order::Order;
pub use reading::read_words;
pub use usage_fault::UsageFault;
