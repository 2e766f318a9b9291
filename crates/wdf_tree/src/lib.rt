//! The plain engine: the reference step made runnable, up and down the trees of adaptors.
#![tactic(auto)]

mod junction;
mod numbers;
mod pass;
#[cfg(test)]
mod tests;
mod tree_engine;
mod walk;
mod wave_tree;
mod width;

pub use tree_engine::TreeEngine;
