//! The chunks of a head, one after another.

ghost use Rattle.std.specs.Prelude.{◌≡◌, ◌+◌, ◌%◌, ◌^◌, ◌<◌, ◌≤◌, ◌||◌, nat_lt, [], length, IfOk, OnOk, IfErr, IfSome, false};
ghost use Rattle.std.specs.Str.{bytes_eq};
ghost use Rattle.std.specs.Io.KnownBytes.{Consumes};
ghost use Rattle.wdf_wav.specs.Chunks.{data_id, format_id};
ghost use Rattle.wdf_wav.specs.HeadReading.{BodyStops, ChunkStops, EndsAtData, IdStops, IsSeen, NextMeets, Passes, TakesFormat};
ghost use Rattle.wdf_wav.specs.Header.{IsFrameFormat, IsReadHead};
ghost use Rattle.wdf_wav.specs.WaveHead.{HeadHasCause, head_of};

use crate::Head;
use crate::format::Format;
use crate::format_chunk::format_of;
use crate::next::Next;
use crate::parts::{is_id, pass_over, take_number, take_part};
use crate::seen::Seen;
use crate::wav_error::{WavError, WavKind, fault};
use wdf_io::{Source, take_exact};

/// The most chunks before `data`.
const MOST_CHUNKS: u32 = 64;

/// A size of `data` from here on stands for an unknown length.
const UNKNOWN_LENGTH: u32 = 0xFFFF_FF00;

const FORMAT: &[u8; 4] = b"fmt ";

const DATA: &[u8; 4] = b"data";

/// Reads the next chunk, or the id and the size of `data`.
pub(crate) fn read_next<S: Source>(src: &mut S, seen: &Seen) -> Result<Next, WavError>
    requires { IsSeen seen.now }
    ensures ok { IfOk result (NextMeets seen.now (S.left src.old) (S.left src.new)) }
    ensures stop { IfErr result (ChunkStops seen.now [] (S.left src.old)) }
    ensures cause { HeadHasCause (S.faults src.old) (S.faults src.new) result }
{
    let mut id = [0; 4];
    take_id(src, seen.at, &mut id)?;
    if is_id(&id, DATA) {
        let head = read_data(src, seen)?;
        return Ok(Next::Data(head));
    }
    if seen.chunks >= MOST_CHUNKS {
        return Err(fault(WavKind::TooManyChunks, seen.at));
    }
    if is_id(&id, FORMAT) {
        let passed = read_format(src, seen)?;
        return Ok(Next::Chunk(passed));
    }
    let passed = read_other(src, seen, &id)?;
    Ok(Next::Chunk(passed))
}

// Takes the id at offset `at`. The input may also end directly before it.
fn take_id<S: Source>(src: &mut S, at: u64, id: &mut [u8]) -> Result<(), WavError>
    requires four { length id.old ≡ 4 }
    requires place { at < 2 ^ 63 }
    ensures ok { OnOk result (Consumes (S.left src.old) (S.left src.new) id.new) }
    ensures stop { IfErr result (IdStops at (S.left src.old)) }
    ensures cause { HeadHasCause (S.faults src.old) (S.faults src.new) result }
{
    match take_exact(src, id)? {
        0 => Err(fault(WavKind::NoData, at)),
        4 => Ok(()),
        count => Err(fault(WavKind::ShortHead, at + count as u64)),
    }
}

// Reads the size of `data` behind its id.
fn read_data<S: Source>(src: &mut S, seen: &Seen) -> Result<Head, WavError>
    requires { IsSeen seen.now }
    ensures ok { IfOk result (EndsAtData seen.now data_id (S.left src.old) (S.left src.new)) }
    ensures valid { IfOk result IsReadHead }
    ensures stop { IfErr result (ChunkStops seen.now data_id (S.left src.old)) }
    ensures cause { HeadHasCause (S.faults src.old) (S.faults src.new) result }
{
    let Some(format) = seen.format else {
        return Err(fault(WavKind::DataFirst, seen.at));
    };
    let size = take_number(src, seen.at + 4)?;
    if size >= UNKNOWN_LENGTH {
        return Err(fault(WavKind::UnknownLength, seen.at + 4));
    }
    Ok(head_of(&format, size))
}

// The head of a format and a size of data.
fn head_of(format: &Format, size: u32) -> Head
    requires { IsFrameFormat format.now.channels format.now.bits }
    ensures { result ≡ head_of format.now size }
{
    let align = u32::from(format.channels * (format.bits / 8));
    Head {
        channels: format.channels,
        rate: format.rate,
        bits: format.bits,
        frames: size / align,
    }
}

// Reads the size, the body and the pad of `fmt ` behind its id.
fn read_format<S: Source>(src: &mut S, seen: &Seen) -> Result<Seen, WavError>
    requires seen { IsSeen seen.now }
    requires few { seen.now.chunks < 64 }
    ensures ok { IfOk result (Passes seen.now format_id (S.left src.old) (S.left src.new)) }
    ensures good { IfOk result IsSeen }
    ensures stop { IfErr result (ChunkStops seen.now format_id (S.left src.old)) }
    ensures cause { HeadHasCause (S.faults src.old) (S.faults src.new) result }
{
    if seen.format.is_some() {
        return Err(fault(WavKind::DoubleFmt, seen.at));
    }
    let size = take_number(src, seen.at + 4)?;
    if has_other_size(size) {
        return Err(fault(WavKind::BadFmtSize, seen.at + 4));
    }
    let mut body = [0; 64];
    let format = read_body(src, seen.at, &mut body[..size as usize])?;
    pass_over(src, seen.at + 8 + u64::from(size), u64::from(size % 2))?;
    Ok(passed(seen, Some(format), size))
}

fn has_other_size(size: u32) -> bool
    ensures { result ≡ (nat_lt size 16 || nat_lt 64 size) }
{
    size < 16 || size > 64
}

// Reads the body of `fmt `, whose id stands at offset `at`.
fn read_body<S: Source>(src: &mut S, at: u64, body: &mut [u8]) -> Result<Format, WavError>
    requires least { 16 ≤ length body.old }
    requires most { length body.old ≤ 64 }
    requires place { at < 2 ^ 62 }
    ensures ok { IfOk result (TakesFormat (length body.old) (S.left src.old) (S.left src.new)) }
    ensures stop { IfErr result (BodyStops (length body.old) at (S.left src.old)) }
    ensures cause { HeadHasCause (S.faults src.old) (S.faults src.new) result }
{
    take_part(src, at + 8, body)?;
    let format = format_of(at, body)?;
    Ok(format)
}

// Passes over a chunk that is neither `fmt ` nor `data`, behind its id.
fn read_other<S: Source>(src: &mut S, seen: &Seen, id: &[u8]) -> Result<Seen, WavError>
    requires seen { IsSeen seen.now }
    requires few { seen.now.chunks < 64 }
    requires four { length id.now ≡ 4 }
    requires no_data { bytes_eq id.now data_id ≡ false }
    requires no_format { bytes_eq id.now format_id ≡ false }
    ensures ok { IfOk result (Passes seen.now id.now (S.left src.old) (S.left src.new)) }
    ensures good { IfOk result IsSeen }
    ensures stop { IfErr result (ChunkStops seen.now id.now (S.left src.old)) }
    ensures cause { HeadHasCause (S.faults src.old) (S.faults src.new) result }
{
    let size = take_number(src, seen.at + 4)?;
    pass_over(src, seen.at + 8, padded(size))?;
    Ok(passed(seen, seen.format, size))
}

// The size of a body and its pad.
fn padded(size: u32) -> u64
    ensures { result ≡ size + size % 2 }
{
    u64::from(size) + u64::from(size % 2)
}

// What is seen behind one more chunk whose body has this size.
fn passed(seen: &Seen, format: Option<Format>, size: u32) -> Seen
    requires seen { IsSeen seen.now }
    requires few { seen.now.chunks < 64 }
    requires frame { IfSome format (λ f. IsFrameFormat f.channels f.bits) }
    ensures counted { result ≡ record { chunks = seen.now.chunks + 1; format = format; at = seen.now.at + 8 + (size + size % 2) } }
    ensures good { IsSeen result }
{
    Seen {
        chunks: seen.chunks + 1,
        format,
        at: seen.at + 8 + padded(size),
    }
}
