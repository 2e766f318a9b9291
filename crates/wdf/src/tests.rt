//! What no clause says: that calls succeed with memory at hand, and that the answers, bytes and lines are
//! those of worked examples and of another program.

mod ample_memory;
mod blocks;
mod calls;
mod certificates;
mod circuits;
mod examples;
mod failing;
mod ladder;
mod refusals;
mod reports;
mod soaks;
mod streaming;
mod waves;
