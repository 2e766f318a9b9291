ghost use Rattle.std.specs.Prelude.{◌≡◌, ◌≤◌};
ghost use Rattle.wdf_algebra.specs.Samples.{IsSampleValue, IsSampleWidth};

use super::*;
use std::alloc::Global;
use std::process::Abort;
use std::test::Fail;
use wdf_io::{Failed, MemSource, take_exact};

mod heads;

// One channel of 16 bits at 48000 frames a second, 4 frames.
const FOUR_FRAMES: [u8; 44] =
    *b"RIFF\x2c\0\0\0WAVEfmt \x10\0\0\0\x01\0\x01\0\x80\xbb\0\0\0\x77\x01\0\x02\0\x10\0data\x08\0\0\0";

// The same with no frames.
const NO_FRAMES: [u8; 44] =
    *b"RIFF\x24\0\0\0WAVEfmt \x10\0\0\0\x01\0\x01\0\x80\xbb\0\0\0\x77\x01\0\x02\0\x10\0data\0\0\0\0";

// Two channels of 24 bits at 48000 frames a second, 1 frame.
const STEREO: [u8; 44] =
    *b"RIFF\x2a\0\0\0WAVEfmt \x10\0\0\0\x01\0\x02\0\x80\xbb\0\0\0\x65\x04\0\x06\0\x18\0data\x06\0\0\0";

// One channel of 8 bits at 8000 frames a second, 3 frames: the size of the file counts a pad byte.
const ODD: [u8; 44] =
    *b"RIFF\x28\0\0\0WAVEfmt \x10\0\0\0\x01\0\x01\0\x40\x1f\0\0\x40\x1f\0\0\x01\0\x08\0data\x03\0\0\0";

fn head(channels: u16, rate: u32, bits: u16, frames: u32) -> Head
    ensures { result ≡ record { channels = channels; rate = rate; bits = bits; frames = frames } }
{
    Head {
        channels,
        rate,
        bits,
        frames,
    }
}

#[test]
fn writes_headers(rt: HostRuntime) {
    assert_eq!(rt; head_bytes(&head(1, 48000, 16, 4)), FOUR_FRAMES);
    assert_eq!(rt; head_bytes(&head(1, 48000, 16, 0)), NO_FRAMES);
    assert_eq!(rt; head_bytes(&head(2, 48000, 24, 1)), STEREO);
    assert_eq!(rt; head_bytes(&head(1, 8000, 8, 3)), ODD);
}

// The value's bytes at this width are the first of these, and the others are 0.
fn expect_sample(rt: &impl Abort, bits: u16, value: i64, bytes: [u8; 4])
    requires width { IsSampleWidth bits }
    requires range { IsSampleValue bits value }
{
    assert_eq!(rt; sample_bytes(value, bits), bytes, "{value} at {bits} bits");
    assert_eq!(rt;
        sample_of(&bytes[..usize::from(bits / 8)], bits),
        value,
        "{bytes:?} at {bits} bits"
    );
}

#[test]
fn codes_samples(rt: HostRuntime) {
    expect_sample(&rt, 8, -128, [0x00, 0, 0, 0]);
    expect_sample(&rt, 8, 0, [0x80, 0, 0, 0]);
    expect_sample(&rt, 8, 127, [0xff, 0, 0, 0]);
    expect_sample(&rt, 16, 1, [0x01, 0x00, 0, 0]);
    expect_sample(&rt, 16, -2, [0xfe, 0xff, 0, 0]);
    expect_sample(&rt, 16, 32767, [0xff, 0x7f, 0, 0]);
    expect_sample(&rt, 16, -32768, [0x00, 0x80, 0, 0]);
    expect_sample(&rt, 24, 1, [0x01, 0x00, 0x00, 0]);
    expect_sample(&rt, 24, -1, [0xff, 0xff, 0xff, 0]);
    expect_sample(&rt, 32, 1, [0x01, 0x00, 0x00, 0x00]);
    expect_sample(&rt, 32, -2147483648, [0x00, 0x00, 0x00, 0x80]);
}

// Frames of 6 bytes, from a source that gives at most 5 bytes in a call.
#[test]
fn reads_whole_frames(rt: HostRuntime) -> Result<(), Fail> {
    let alloc = rt.alloc();
    let stereo = head(2, 48000, 24, 2);
    for (input, frames, read) in [
        (b"abcdefghijklmn".as_slice(), 2, b"abcdefghijkl".as_slice()),
        (b"abcdefghij".as_slice(), 1, b"abcdefghij".as_slice()),
        (b"abc".as_slice(), 0, b"abc".as_slice()),
        (b"".as_slice(), 0, b"".as_slice()),
    ] {
        let mut source = MemSource::new(input.to_vec(alloc)?, Vec::new(alloc), 5);
        let mut buf = [0; 12];
        assert_eq!(rt;
            read_block(&mut source, &stereo, &mut buf),
            Ok(frames),
            "of {input:?}"
        );
        assert!(rt; buf.starts_with(read));
    }
    let mut failing = MemSource::new(b"abcdefghijkl".to_vec(alloc)?, vec![in alloc; 1]?, 5);
    assert_eq!(rt;
        read_block(&mut failing, &stereo, &mut [0; 12]),
        Err(Failed)
    );
    Ok(())
}

// Two channels of 24 bits, told by a GUID; a chunk of odd size and its pad; one frame.
const EXTENSIBLE: [u8; 86] =
    *b"RIFF\x4e\0\0\0WAVEfmt \x28\0\0\0\xfe\xff\x02\0\x80\xbb\0\0\0\x65\x04\0\x06\0\x18\0\x16\0\x18\0\x03\0\0\0\x01\0\0\0\0\0\x10\0\x80\0\0\xaa\x00\x38\x9b\x71LIST\x03\0\0\0abc\0data\x06\0\0\0\x01\0\0\xff\xff\xff";

// What is read of an input that comes in pieces, and fails at these calls.
fn read(
    alloc: Global,
    bytes: &[u8],
    fails: Vec<u64>,
    piece: usize,
) -> Result<Result<Head, WavError>, Fail>
    requires { 1 ≤ piece }
{
    Ok(read_head(&mut MemSource::new(bytes.to_vec(alloc)?, fails, piece)))
}

fn fault(kind: WavKind, at: u64) -> Result<Head, WavError> {
    Err(WavError::Fault { kind, at })
}

// Byte by byte, and what follows the head is left.
#[test]
fn reads_heads(rt: HostRuntime) -> Result<(), Fail> {
    let alloc = rt.alloc();
    for (bytes, head, size) in &heads::READ {
        let mut source = MemSource::new(bytes.to_vec(alloc)?, Vec::new(alloc), 1);
        assert_eq!(rt; read_head(&mut source), Ok(*head), "of {bytes:?}");
        let mut rest = [0; 128];
        let count = take_exact(&mut source, &mut rest)?;
        assert_eq!(rt; count + size, bytes.len(), "of {bytes:?}");
        assert!(rt; bytes.ends_with(&rest[..count]));
    }
    Ok(())
}

#[test]
fn refuses_heads(rt: HostRuntime) -> Result<(), Fail> {
    let alloc = rt.alloc();
    for (bytes, kind, at) in &heads::REFUSED {
        assert_eq!(rt;
            read(alloc, bytes, Vec::new(alloc), 7)?,
            fault(*kind, *at),
            "of {bytes:?}"
        );
    }
    Ok(())
}

// An input cut anywhere: it ends at a chunk's id, or within a part, or behind the head.
#[test]
fn answers_each_cut(rt: HostRuntime) -> Result<(), Fail> {
    let alloc = rt.alloc();
    for (cut, _) in EXTENSIBLE.iter().enumerate() {
        let want = match cut {
            12 | 60 | 72 => fault(WavKind::NoData, cut as u64),
            80.. => Ok(head(2, 48000, 24, 1)),
            _ => fault(WavKind::ShortHead, cut as u64),
        };
        assert_eq!(rt;
            read(alloc, &EXTENSIBLE[..cut], Vec::new(alloc), 5)?,
            want,
            "cut at {cut}"
        );
    }
    Ok(())
}

// Three parts of the form, three of the first chunk, three of the second, and two of `data`.
#[test]
fn fails_at_each_call(rt: HostRuntime) -> Result<(), Fail> {
    let alloc = rt.alloc();
    for call in 0..12 {
        let want = if call < 11 {
            Err(WavError::ReadFault)
        } else {
            Ok(head(2, 48000, 24, 1))
        };
        let fails = vec![in alloc; call]?;
        assert_eq!(rt; read(alloc, &EXTENSIBLE, fails, 1000)?, want, "call {call}");
    }
    Ok(())
}

// `fmt ` and empty chunks, so many in all, and then a last one.
fn chunks(alloc: Global, count: u32, last: &[u8]) -> Result<Vec<u8>, Fail> {
    let mut bytes = FOUR_FRAMES[..36].to_vec(alloc)?;
    for _ in 1..count {
        bytes.extend_from_slice(b"junk\0\0\0\0")?;
    }
    bytes.extend_from_slice(last)?;
    Ok(bytes)
}

#[test]
fn counts_chunks(rt: HostRuntime) -> Result<(), Fail> {
    let alloc = rt.alloc();
    let data = b"data\x08\0\0\0".as_slice();
    for (count, last, want) in [
        (64, data, Ok(head(1, 48000, 16, 4))),
        (65, data, fault(WavKind::TooManyChunks, 540)),
        (64, b"junk".as_slice(), fault(WavKind::TooManyChunks, 540)),
        (64, b"fmt ".as_slice(), fault(WavKind::TooManyChunks, 540)),
    ] {
        let bytes = chunks(alloc, count, last)?;
        assert_eq!(rt;
            read(alloc, &bytes, Vec::new(alloc), 1000)?,
            want,
            "{count} chunks"
        );
    }
    Ok(())
}
