//! The structure of a circuit: its reduction to a shape or to a core, and where its root is put.
#![tactic(auto)]

mod edge;
mod edges;
pub mod laws;
mod merge;
mod pair;
mod reduction;
mod rerooting;
mod rooted;
mod sp_fault;

pub use edge::Edge;
pub use edges::Edges;
pub use reduction::decompose;
pub use rerooting::{choose, reroot};
pub use rooted::Rooted;
pub use sp_fault::SpFault;

#[cfg(test)]
mod tests;
