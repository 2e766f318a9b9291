//! The runner of the fast engine makes the load waves of plain engines that go frame by frame, however
//! its own frames are cut into blocks; and behind each block its down slots hold their waves. A slot
//! that the plain engine has not was worked by hand.

mod fast;
mod networks;
mod plain;
mod samples;

use fast::Fast;
use networks::{Subject, networks};
use plain::Plain;
use samples::{Samples, next};
use std::alloc::Global;
use std::process::Abort;
use std::test::Fail;

// How many frames each block has: 1,000 in all.
const BLOCKS: [usize; 5] = [1, 7, 256, 257, 479];

// What runs, and how many runs it has; several sources have one.
const SUBJECTS: [(Subject, u8); 12] = [
    (Subject::Soaked, 1),
    (Subject::Soaked, 2),
    (Subject::Soaked, 3),
    (Subject::Soaked, 4),
    (Subject::Soaked, 5),
    (Subject::Soaked, 6),
    (Subject::Soaked, 7),
    (Subject::Soaked, 8),
    (Subject::Text(SUBTREES), 8),
    (Subject::BothSides, 2),
    (Subject::Text(LATTICE), 3),
    (Subject::Text(TWO_SOURCES), 1),
];

// Subtrees at both sides of a parallel junction, and of each of the two series junctions below it.
const SUBTREES: &[u8] =
    b"rate 48000\nsource S in 0 600\nr R1 in a 1k\nc C1 in a 47n\nl L1 a 0 30m\nc C2 a 0 100n\nc C3 in b 10n\nr R2 in b 2.2k\nl L2 b 0 82m\nr R3 b 0 4.7k\nr L in 0 600\nload L\n";

// An inductor beside a capacitor in one branch, and a capacitor in the other.
const LATTICE: &[u8] =
    b"rate 48000\nlattice 600\nbranch A p n\nl L1 p n 31.8m\nc C1 p n 88.4n\nbranch B p n\nc C2 p n 88.4n\n";

// The second source in a subtree beside that of the load.
const TWO_SOURCES: &[u8] =
    b"rate 48000\nsource S in 0 600\nl L1 in out 30m\ninput T aux 0 1k\nc C1 aux out 100n\nc C2 out 0 47n\nr L out 0 10k\nload L\n";

// The next frame of each run by its plain engine: its load waves, and its samples, each behind those of
// the block.
fn frame(
    rt: &impl Abort,
    alloc: Global,
    runs: &mut Vec<Plain>,
    word: &mut u32,
    block: &mut Samples,
    waves: &mut Vec<i64>,
) -> Result<(), Fail> {
    for run in runs.iter_mut() {
        let mut samples = Samples::new(alloc);
        for _ in 0..run.sources() {
            let sample = next(word);
            samples.push(sample)?;
            block.push(sample)?;
        }
        waves.push(run.step(rt, &samples))?;
    }
    Ok(())
}

// A block of so many frames by both.
fn compare(
    rt: &impl Abort,
    alloc: Global,
    runs: &mut Vec<Plain>,
    fast: &mut Fast,
    word: &mut u32,
    count: usize,
) -> Result<(), Fail> {
    let mut block = Samples::new(alloc);
    let mut waves = Vec::new(alloc);
    for _ in 0..count {
        frame(rt, alloc, runs, word, &mut block, &mut waves)?;
    }
    let made = fast.block(rt, alloc, count, &block)?;
    assert!(rt; made == waves, "{count} frames");
    for (number, run) in runs.iter().enumerate() {
        assert!(rt;
            run.is_shown(fast, number),
            "run {number} behind {count} frames"
        );
    }
    Ok(())
}

// 1,000 frames.
fn agree(rt: &impl Abort, alloc: Global, subject: Subject, count: u8) -> Result<(), Fail> {
    let mut runs = Vec::new(alloc);
    for _ in 0..count {
        runs.push(Plain::new(alloc, networks(rt, alloc, subject)?)?)?;
    }
    let mut fast = Fast::boxed(rt, alloc, networks(rt, alloc, subject)?, count)?;
    let mut word = 3;
    for frames in BLOCKS {
        compare(rt, alloc, &mut runs, &mut fast, &mut word, frames)?;
    }
    assert_eq!(rt; fast.done(), 1_000);
    Ok(())
}

#[test]
fn both_engines_agree(rt: HostRuntime) -> Result<(), Fail> {
    for (subject, runs) in SUBJECTS {
        agree(&rt, rt.alloc(), subject, runs)?;
    }
    Ok(())
}

// What 16384, 0 and 0 leave.
#[test]
fn a_worked_slot_before_truncation(rt: HostRuntime) -> Result<(), Fail> {
    let alloc = rt.alloc();
    let mut fast = Fast::boxed(&rt, alloc, networks(&rt, alloc, Subject::OneJunction)?, 1)?;
    let mut block = Samples::new(alloc);
    block.push(16_384)?;
    block.push(0)?;
    block.push(0)?;
    let waves = fast.block(&rt, alloc, 3, &block)?;
    assert!(rt; waves.as_slice() == [174_752, 116_504, -38_833].as_slice());
    assert_eq!(rt; fast.raw(), Some(-477_167_616));
    Ok(())
}
