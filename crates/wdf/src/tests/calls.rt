//! One call of the program over objects in memory, and what it is to answer.

use crate::run::run;
use std::alloc::{AllocError, Global};
use std::process::Abort;
use std::test::Fail;
use wdf_io::{MemShelf, MemSink, MemSource};

/// A call of the program, and what it answers.
#[derive(Clone, Copy)]
pub(super) struct Case<'a> {
    /// The words, parted by `|`; none in an empty text.
    pub(super) words: &'a str,
    /// The file `N`.
    pub(super) netlist: &'a [u8],
    /// The file `C`.
    pub(super) certificate: &'a [u8],
    pub(super) input: &'a [u8],
    pub(super) code: u8,
    /// What the output gains.
    pub(super) out: &'a [u8],
    /// What the note gains; of a run that was done, the end of that.
    pub(super) line: &'a str,
}

/// Which call of each object fails, counted from 0, and how many bytes a call moves at most.
#[derive(Clone, Copy)]
pub(super) struct Objects {
    pub(super) shelf: Option<u64>,
    pub(super) input: Option<u64>,
    pub(super) out: Option<u64>,
    pub(super) note: Option<u64>,
    pub(super) piece: usize,
}

/// Objects of which no call fails.
pub(super) const SOUND: Objects = Objects {
    shelf: None,
    input: None,
    out: None,
    note: None,
    piece: ROOM,
};

// The room of a sink, in bytes.
const ROOM: usize = 100_000;

/// What a call left behind.
#[derive(Drop)]
pub(super) struct Outcome {
    pub(super) code: u8,
    pub(super) out: Vec<u8>,
    pub(super) note: Vec<u8>,
}

fn words_of(alloc: Global, line: &str) -> Result<Vec<String>, AllocError> {
    let mut words = Vec::new(alloc);
    if !line.is_empty() {
        for word in line.split('|') {
            words.push(String::from_str(alloc, word)?)?;
        }
    }
    Ok(words)
}

fn fails(alloc: Global, call: Option<u64>) -> Result<Vec<u64>, AllocError> {
    let mut calls = Vec::new(alloc);
    if let Some(call) = call {
        calls.push(call)?;
    }
    Ok(calls)
}

fn files_of(alloc: Global, case: &Case<'_>) -> Result<Vec<(String, Vec<u8>)>, AllocError> {
    let mut files = Vec::new(alloc);
    files.push((String::from_str(alloc, "N")?, case.netlist.to_vec(alloc)?))?;
    files.push((
        String::from_str(alloc, "C")?,
        case.certificate.to_vec(alloc)?,
    ))?;
    Ok(files)
}

/// Makes the call of a case over these objects.
pub(super) fn call(
    rt: &impl Abort,
    alloc: Global,
    case: &Case<'_>,
    objects: Objects,
) -> Result<Outcome, AllocError> {
    let piece = objects.piece;
    assert!(rt; piece >= 1);
    let words = words_of(alloc, case.words)?;
    let mut shelf = MemShelf::new(files_of(alloc, case)?, fails(alloc, objects.shelf)?);
    let mut input = MemSource::new(
        case.input.to_vec(alloc)?,
        fails(alloc, objects.input)?,
        piece,
    );
    let mut out = MemSink::new(alloc, fails(alloc, objects.out)?, piece, ROOM)?;
    let mut note = MemSink::new(alloc, fails(alloc, objects.note)?, piece, ROOM)?;
    let status = run(alloc, &words, &mut shelf, &mut input, &mut out, &mut note);
    Ok(Outcome {
        code: status.code(),
        out: out.bytes().to_vec(alloc)?,
        note: note.bytes().to_vec(alloc)?,
    })
}

// The note is what the case tells of it.
fn is_noted(case: &Case<'_>, note: &[u8]) -> bool {
    if case.code == 0 && case.words.starts_with("run|") {
        note.ends_with(case.line.as_bytes())
    } else {
        note == case.line.as_bytes()
    }
}

/// The outcome is what the case answers.
pub(super) fn is_as_told(rt: &impl Abort, case: &Case<'_>, outcome: &Outcome) {
    assert_eq!(rt; outcome.code, case.code, "{} {}", case.words, case.line);
    assert!(rt;
        outcome.out.as_slice() == case.out,
        "output of {} {}",
        case.words,
        case.line
    );
    assert!(rt;
        is_noted(case, &outcome.note),
        "note of {} {}",
        case.words,
        case.line
    );
}

/// Over these objects the call answers what the case tells.
pub(super) fn is_answered(
    rt: &impl Abort,
    alloc: Global,
    case: &Case<'_>,
    objects: Objects,
) -> Result<(), Fail> {
    let outcome = call(rt, alloc, case, objects)?;
    is_as_told(rt, case, &outcome);
    Ok(())
}
