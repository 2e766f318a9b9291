//! Calls that fail, each in turn, and pieces of one byte.

use super::calls::{Case, Objects, SOUND, call, is_answered, is_as_told};
use super::circuits::{
    BRIDGE, CERTIFICATE, DIFFERENCE, DIVIDER, EXTENSIBLE, FOUR, LATTICE, LOW_PASS, STEREO, TWO,
};
use std::alloc::Global;
use std::process::Abort;
use std::test::Fail;

// Two runs: two channels of 24 bits by the divider, and one channel by a lattice.
static RUNS: [Case<'static>; 2] = [
    Case {
        words: "run|net=N",
        netlist: DIVIDER,
        certificate: b"",
        input: &EXTENSIBLE,
        code: 0,
        out: &STEREO,
        line: "",
    },
    Case {
        words: "run|net=N",
        netlist: LATTICE,
        certificate: b"",
        input: &TWO,
        code: 0,
        out: &DIFFERENCE,
        line: "",
    },
];

#[derive(Clone, Copy, Debug)]
enum Object {
    Shelf,
    Input,
    Output,
}

// Objects of which one fails at this call.
fn failing(object: Object, number: u64, piece: usize) -> Objects {
    let sound = Objects { piece, ..SOUND };
    let fails = Some(number);
    match object {
        Object::Shelf => Objects {
            shelf: fails,
            ..sound
        },
        Object::Input => Objects {
            input: fails,
            ..sound
        },
        Object::Output => Objects {
            out: fails,
            ..sound
        },
    }
}

// Lets one call of the object after the other fail, from the first on, until a call is done as told.
// Each before answers this status with its line, and leaves a front of the output. Gives how many failed.
fn fails_in_place(
    rt: &impl Abort,
    alloc: Global,
    case: &Case<'_>,
    object: Object,
    piece: usize,
    code: u8,
    line: &str,
) -> Result<u64, Fail> {
    for number in 0..200 {
        let outcome = call(rt, alloc, case, failing(object, number, piece))?;
        if outcome.code == 0 {
            is_as_told(rt, case, &outcome);
            return Ok(number);
        }
        assert_eq!(rt; outcome.code, code, "call {number} of {object:?}");
        assert!(rt; outcome.note.as_slice() == line.as_bytes());
        assert!(rt; case.out.starts_with(&outcome.out));
    }
    assert!(rt; false, "{object:?} fails on");
    Ok(0)
}

// An object, the status where one of its calls fails, and that status's line.
const FAULTS: [(Object, u8, &str); 3] = [
    (Object::Shelf, 17, "wdf: 17 load fault\n"),
    (Object::Input, 14, "wdf: 14 read fault\n"),
    (Object::Output, 15, "wdf: 15 write fault\n"),
];

#[test]
fn each_failing_call_is_answered_in_its_place(rt: HostRuntime) -> Result<(), Fail> {
    let alloc = rt.alloc();
    for case in &RUNS {
        for (object, code, line) in FAULTS {
            let failed = fails_in_place(&rt, alloc, case, object, 100_000, code, line)?;
            match object {
                Object::Shelf => assert_eq!(rt; failed, 1),
                // The header, and the frames as one piece.
                Object::Output => assert_eq!(rt; failed, 2),
                // At least the form, the head of a chunk, the data.
                Object::Input => assert!(rt; failed >= 3),
            }
        }
    }
    Ok(())
}

// With pieces of one byte each byte is a call, and a failing one leaves just the bytes before.
#[test]
fn each_byte_may_fail(rt: HostRuntime) -> Result<(), Fail> {
    let alloc = rt.alloc();
    for case in &RUNS {
        let read = fails_in_place(
            &rt,
            alloc,
            case,
            Object::Input,
            1,
            14,
            "wdf: 14 read fault\n",
        )?;
        assert_eq!(rt; read, case.input.len() as u64);
        let line = "wdf: 15 write fault\n";
        let written = fails_in_place(&rt, alloc, case, Object::Output, 1, 15, line)?;
        assert_eq!(rt; written, case.out.len() as u64);
    }
    Ok(())
}

#[test]
fn pieces_of_one_byte_change_nothing(rt: HostRuntime) -> Result<(), Fail> {
    let alloc = rt.alloc();
    for case in &RUNS {
        is_answered(&rt, alloc, case, Objects { piece: 1, ..SOUND })?;
    }
    Ok(())
}

// A refusal whose line is noted byte by byte.
const REFUSED: Case<'static> = Case {
    words: "run|net=N",
    netlist: BRIDGE,
    certificate: b"",
    input: &FOUR,
    code: 3,
    out: b"",
    line: "wdf: 3 not series-parallel element R1 core 5\n",
};

#[test]
fn a_note_that_fails_changes_no_answer(rt: HostRuntime) -> Result<(), Fail> {
    let alloc = rt.alloc();
    for (number, _) in REFUSED.line.as_bytes().iter().enumerate() {
        let objects = Objects {
            note: Some(number as u64),
            piece: 1,
            ..SOUND
        };
        let outcome = call(&rt, alloc, &REFUSED, objects)?;
        assert_eq!(rt; outcome.code, 3);
        assert!(rt; outcome.out.is_empty());
        assert_eq!(rt; outcome.note.len(), number);
        assert!(rt; REFUSED.line.as_bytes().starts_with(&outcome.note));
    }
    Ok(())
}

// What a call whose note failed left there: a front of the whole note, and the line of that.
fn holds_front(rt: &impl Abort, whole: &[u8], note: &[u8]) {
    let line = b"wdf: 16 note fault\n";
    assert!(rt; note.ends_with(line));
    let front = note.len().saturating_sub(line.len());
    assert!(rt; front <= note.len());
    assert!(rt; whole.starts_with(&note[..front]));
}

// The report, the counts, and a line for each channel of each circuit: the note's calls 0 to 3.
#[test]
fn a_run_whose_note_fails_has_written_its_wave(rt: HostRuntime) -> Result<(), Fail> {
    let alloc = rt.alloc();
    for case in &RUNS {
        let told = call(&rt, alloc, case, SOUND)?;
        for number in 0..4 {
            let objects = Objects {
                note: Some(number),
                ..SOUND
            };
            let outcome = call(&rt, alloc, case, objects)?;
            assert_eq!(rt; outcome.code, 16);
            assert!(rt; outcome.out.as_slice() == case.out);
            holds_front(&rt, &told.note, &outcome.note);
        }
        let behind = Objects {
            note: Some(4),
            ..SOUND
        };
        is_answered(&rt, alloc, case, behind)?;
    }
    Ok(())
}

// Commands that read no input and write once: the input's calls may fail.
#[test]
fn certificates_need_no_input(rt: HostRuntime) -> Result<(), Fail> {
    let alloc = rt.alloc();
    let certify = Case {
        words: "certify|net=N",
        netlist: LOW_PASS,
        certificate: b"",
        input: &FOUR,
        code: 0,
        out: CERTIFICATE,
        line: "",
    };
    is_answered(&rt, alloc, &certify, failing(Object::Input, 0, 100_000))?;
    let unwritten = Case {
        code: 15,
        out: b"",
        line: "wdf: 15 write fault\n",
        ..certify
    };
    is_answered(&rt, alloc, &unwritten, failing(Object::Output, 0, 100_000))?;
    let check = Case {
        words: "check|net=N|cert=C",
        certificate: certify.out,
        out: b"accepted\n",
        ..certify
    };
    is_answered(&rt, alloc, &check, failing(Object::Input, 0, 100_000))?;
    let unloaded = Case {
        code: 17,
        out: b"",
        line: "wdf: 17 load fault\n",
        ..check
    };
    is_answered(&rt, alloc, &unloaded, failing(Object::Shelf, 0, 100_000))?;
    is_answered(&rt, alloc, &unloaded, failing(Object::Shelf, 1, 100_000))?;
    Ok(())
}
