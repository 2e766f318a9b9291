//! The flat schedule: the step of a network as a list of operations on numbered slots, in the order
//! in which they are carried out.
#![tactic(auto)]

mod compiling;
mod descent;
pub mod laws;
mod leaf_slots;
mod op;
mod rise;
mod schedule;
#[cfg(test)]
mod tests;

pub use compiling::compile;
pub use leaf_slots::LeafSlots;
pub use op::Op;
pub use schedule::Schedule;
