//! The fields of the chunk `fmt `.

ghost use Rattle.std.specs.Prelude.{◌≡◌, ◌+◌, ◌*◌, ◌/◌, ◌^◌, ◌<◌, ◌≤◌, ◌==◌, ◌&&◌, ◌||◌, not, nat_lt, false, length, IfOk, IfErr};
ghost use Rattle.std.specs.Str.{bytes_eq};
ghost use Rattle.wdf_wav.specs.FormatChunk.{IsFormat, pcm_subformat, pcm_tag, subformat_of, u16_at};
ghost use Rattle.wdf_wav.specs.HeadFaults.{is_extensible, is_width};
ghost use Rattle.wdf_wav.specs.HeadReading.{FieldsStop, format_in};

use crate::format::Format;
use crate::wav_error::{WavError, WavKind, fault};
use byteorder::{ByteOrder, LittleEndian};

/// The tag of uncompressed PCM.
const PCM: u16 = 1;

/// The tag of a body that names its samples by a GUID.
const EXTENSIBLE: u16 = 0xFFFE;

/// The GUID of uncompressed PCM.
const PCM_SUBFORMAT: [u8; 16] = [
    0x01, 0x00, 0x00, 0x00, 0x00, 0x00, 0x10, 0x00, 0x80, 0x00, 0x00, 0xAA, 0x00, 0x38, 0x9B, 0x71,
];

/// The format that the body of a chunk `fmt ` tells, which stands at offset `at`.
#[tactic(auto, using(crate::proofs::FormatLemmas::tells_format))]
pub(crate) fn format_of(at: u64, body: &[u8]) -> Result<Format, WavError>
    requires least { 16 ≤ length body.now }
    requires most { length body.now ≤ 64 }
    requires place { at < 2 ^ 63 }
    ensures told { IfOk result (IsFormat body.now) }
    ensures stop { IfErr result (FieldsStop at body.now) }
{
    if has_other_tag(body) {
        return Err(fault(WavKind::BadTag, at + 8));
    }
    if is_cut_extensible(body) {
        return Err(fault(WavKind::BadFmtSize, at + 4));
    }
    if has_other_channels(body) {
        return Err(fault(WavKind::BadChannels, at + 10));
    }
    if has_other_bits(body) {
        return Err(fault(WavKind::BadBits, at + 22));
    }
    if has_other_align(body) {
        return Err(fault(WavKind::BadAlign, at + 20));
    }
    if has_other_subformat(body) {
        return Err(fault(WavKind::BadSubformat, at + 32));
    }
    Ok(fields_of(body))
}

// The fields that a format keeps.
fn fields_of(body: &[u8]) -> Format
    requires { 16 ≤ length body.now }
    ensures { result ≡ format_in body.now }
{
    Format {
        channels: u16_at(body, 2),
        rate: LittleEndian::read_u32(&body[4..]),
        bits: u16_at(body, 14),
    }
}

// The field of 16 bits at a place.
fn u16_at(body: &[u8], place: usize) -> u16
    requires { place + 2 ≤ length body.now }
    ensures { result ≡ u16_at place body.now }
{
    LittleEndian::read_u16(&body[place..])
}

// The tests of the table of faults, one a row, in its order.

fn has_other_tag(body: &[u8]) -> bool
    requires { 16 ≤ length body.now }
    ensures { result ≡ not (u16_at 0 body.now == pcm_tag || is_extensible body.now) }
{
    let tag = u16_at(body, 0);
    tag != PCM && tag != EXTENSIBLE
}

fn is_extensible(body: &[u8]) -> bool
    requires { 16 ≤ length body.now }
    ensures { result ≡ is_extensible body.now }
{
    u16_at(body, 0) == EXTENSIBLE
}

fn is_cut_extensible(body: &[u8]) -> bool
    requires { 16 ≤ length body.now }
    ensures { result ≡ (is_extensible body.now && nat_lt (length body.now) 40) }
{
    is_extensible(body) && body.len() < 40
}

fn has_other_channels(body: &[u8]) -> bool
    requires { 16 ≤ length body.now }
    ensures { result ≡ (u16_at 2 body.now == 0 || nat_lt 8 (u16_at 2 body.now)) }
{
    let channels = u16_at(body, 2);
    channels == 0 || channels > 8
}

fn has_other_bits(body: &[u8]) -> bool
    requires { 16 ≤ length body.now }
    ensures { result ≡ not (is_width (u16_at 14 body.now)) }
{
    !matches!(u16_at(body, 14), 8 | 16 | 24 | 32)
}

fn has_other_align(body: &[u8]) -> bool
    requires least { 16 ≤ length body.now }
    requires channels { (u16_at 2 body.now == 0 || nat_lt 8 (u16_at 2 body.now)) ≡ false }
    ensures { result ≡ not (u16_at 12 body.now == u16_at 2 body.now * (u16_at 14 body.now / 8)) }
{
    let align = u16_at(body, 2) * (u16_at(body, 14) / 8);
    u16_at(body, 12) != align
}

fn has_other_subformat(body: &[u8]) -> bool
    requires least { 16 ≤ length body.now }
    requires whole { (is_extensible body.now && nat_lt (length body.now) 40) ≡ false }
    ensures { result ≡ (is_extensible body.now && not (bytes_eq (subformat_of body.now) pcm_subformat)) }
{
    is_extensible(body) && &body[24..40] != PCM_SUBFORMAT.as_slice()
}
