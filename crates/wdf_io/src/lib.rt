//! Where bytes come from and go to.
//!
//! Three traits stand for the outside. A [`Source`] gives bytes, a [`Sink`] takes bytes, and a
//! [`Shelf`] holds files by their names. Each counts its faults: an answer that blames the object
//! comes only where that count rose in the call. Each may tell its content to contracts: the bytes
//! that are left, the bytes that were written, the files. Clauses on content hold where it is told,
//! clauses on counts hold always.
//!
//! [`take_exact`] and [`put_all`] move a whole buffer, however small the pieces are in which an
//! object moves it.
//!
//! In memory, [`MemSource`], [`MemSink`] and [`MemShelf`] fail at the calls that they are told to
//! fail at; [`SureSource`] and [`SureShelf`] never fail. They tell their content. [`StdSource`],
//! [`StdSink`] and [`DirShelf`] stand at the edge, over readers and writers of std and the system's
//! files. They tell none, so what the system reads and writes there is trusted.
#![tactic(auto)]

mod calls;
mod copy;
mod count;
mod dir_shelf;
mod failed;
mod load_error;
mod mem_shelf;
mod mem_sink;
mod mem_source;
mod shelf;
mod sink;
mod source;
mod std_sink;
mod std_source;
mod sure_shelf;
mod sure_source;

pub use copy::{put_all, take_exact};
pub use dir_shelf::DirShelf;
pub use failed::Failed;
pub use load_error::LoadError;
pub use mem_shelf::MemShelf;
pub use mem_sink::MemSink;
pub use mem_source::MemSource;
pub use shelf::Shelf;
pub use sink::Sink;
pub use source::Source;
pub use std::alloc::AllocError as NoMemory;
pub use std_sink::StdSink;
pub use std_source::StdSource;
pub use sure_shelf::SureShelf;
pub use sure_source::SureSource;

#[cfg(test)]
mod tests;
