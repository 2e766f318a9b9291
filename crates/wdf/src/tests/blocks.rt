//! Waves of several blocks of 4,096 frames.

use super::calls::{Case, Objects, SOUND, call, is_answered};
use super::circuits::DIVIDER;
use std::alloc::{AllocError, Global};
use std::process::Abort;
use std::test::Fail;

// The header of 10,000 frames of one channel of 16 bits.
const HEADER: &[u8; 44] =
    b"RIFFDN\0\0WAVEfmt \x10\0\0\0\x01\0\x01\0\x80\xbb\0\0\0w\x01\0\x02\0\x10\0data N\0\0";

// So many bytes of the front of a wave.
fn front<'a>(rt: &impl Abort, wave: &'a [u8], count: usize) -> &'a [u8] {
    assert!(rt; count <= wave.len());
    &wave[..count]
}

// 10,000 frames, all of them 0 but frame 5,000, which is 5.
fn wave(alloc: Global) -> Result<Vec<u8>, AllocError> {
    let mut bytes = HEADER.to_vec(alloc)?;
    for frame in 0..10_000 {
        bytes.push(if frame == 5_000 { 5 } else { 0 })?;
        bytes.push(0)?;
    }
    Ok(bytes)
}

#[test]
fn a_block_is_written_as_one_piece(rt: HostRuntime) -> Result<(), Fail> {
    let alloc = rt.alloc();
    let wave = wave(alloc)?;
    let done = Case {
        words: "run|net=N",
        netlist: DIVIDER,
        certificate: b"",
        input: &wave,
        code: 0,
        out: &wave,
        line: "",
    };
    // The header, two whole blocks and a shorter one: the output's calls 0 to 3.
    let fifth = Objects {
        out: Some(4),
        ..SOUND
    };
    is_answered(&rt, alloc, &done, fifth)?;
    let fourth = Objects {
        out: Some(3),
        ..SOUND
    };
    let outcome = call(&rt, alloc, &done, fourth)?;
    assert_eq!(rt; outcome.code, 15);
    assert_eq!(rt; outcome.out.len(), 44 + 2 * 8_192);
    assert!(rt; wave.starts_with(&outcome.out));
    Ok(())
}

#[test]
fn a_later_block_stops_at_its_frame(rt: HostRuntime) -> Result<(), Fail> {
    let alloc = rt.alloc();
    let wave = wave(alloc)?;
    let loud = Case {
        words: "run|net=N|amp=4",
        netlist: DIVIDER,
        certificate: b"",
        input: &wave,
        code: 9,
        out: front(&rt, &wave, 44 + 2 * 5_000),
        line: "wdf: 9 amplitude frame 5000 channel 0 sample 5\n",
    };
    is_answered(&rt, alloc, &loud, SOUND)?;
    let short = Case {
        words: "run|net=N",
        input: front(&rt, &wave, 45 + 2 * 9_000),
        code: 10,
        out: front(&rt, &wave, 44 + 2 * 9_000),
        line: "wdf: 10 truncated frames 9000\n",
        ..loud
    };
    is_answered(&rt, alloc, &short, SOUND)?;
    Ok(())
}
