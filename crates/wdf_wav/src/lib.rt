//! Waves of uncompressed PCM, as RIFF WAVE files hold them: one to eight channels of samples of 8,
//! 16, 24 or 32 bits.
//!
//! A wave is a head, then its data. The head is what stands before the data: a RIFF file of the form
//! WAVE, its chunks, and the size of the chunk `data`. The data is one frame after another, a frame
//! is one sample of each channel, and a sample is `bits / 8` bytes. So a frame has
//! `channels · bits / 8` bytes.
//!
//! [`read_head`] reads the head of a wave as tools write it, or says what is wrong with it and where.
//! [`head_bytes`] gives the 44 bytes of the head that is written. [`read_block`] reads whole frames
//! from a source. [`sample_of`] and [`sample_bytes`] turn the bytes of a sample into its value and
//! back. The module [`laws`] says that each text has one answer, that what is written is read as
//! what it was, and how the samples of data follow each other.
//!
//! ```rust
//! let head = read_head(&mut source)?;
//! let header = head_bytes(&head);
//! let mut frame = [0; 2];
//! while read_block(&mut source, &head, &mut frame)? == 1 {
//!     let value = sample_of(&frame, head.bits);
//! }
//! ```
//!
//! No call of this crate takes memory.
#![tactic(auto)]

mod block;
mod chunk_reader;
mod format;
mod format_chunk;
mod head;
mod head_reader;
mod header;
pub mod laws;
mod next;
mod parts;
mod sample;
mod seen;
#[cfg(test)]
mod tests;
mod wav_error;

pub use crate::block::read_block;
pub use crate::head::Head;
pub use crate::head_reader::read_head;
pub use crate::header::head_bytes;
pub use crate::sample::{sample_bytes, sample_of};
pub use crate::wav_error::{WavError, WavKind};
