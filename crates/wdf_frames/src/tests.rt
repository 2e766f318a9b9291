ghost use Rattle.std.specs.Prelude.{◌≡◌, ◌≤◌, ◌<◌, IfOk, IfSome, OnOk};
ghost use Rattle.wdf_bounds.specs.WordBound.{Fits};
ghost use Rattle.wdf_algebra.specs.Samples.{IsSampleWidth};
ghost use Rattle.wdf_wav.specs.Header.{IsFrameFormat, IsPcmHead, data_size};
ghost use Rattle.wdf_frames.specs.RunStates.{IsFresh};

use super::*;
use std::alloc::{AllocError, Global};
use std::process::Abort;
use std::test::Fail;
use wdf_bounds::{Plan, plan_check};
use wdf_energy::Totals;
use wdf_io::{MemSink, MemSource, take_exact};
use wdf_lattice::Networks;
use wdf_law::{Kind, Net, Outlet, Side, Tree};
use wdf_quant::enclose;
use wdf_wav::{Head, head_bytes};

// ---- networks, each with a source as element 0

fn leaf(elem: u32, kind: Kind) -> Tree {
    Tree::Leaf {
        elem,
        kind,
        flip: false,
    }
}

fn pair(alloc: Global, first: Tree, second: Tree) -> Result<Tree, AllocError> {
    Ok(Tree::Parallel {
        m: 8192,
        l: Box::new(alloc, first)?,
        r: Box::new(alloc, second)?,
    })
}

// A source and a load of the same resistance: each output sample is that of the input.
fn divider() -> Result<Net, Fail>
    ensures { IfOk result (λ net. net.k ≡ 14) }
{
    let net = Net::new(
        14,
        8192,
        leaf(0, Kind::Src),
        leaf(1, Kind::Res),
        Outlet::Load(1),
    )?;
    Ok(net)
}

// A source, and an element and a load in parallel.
fn tee(alloc: Global, kind: Kind) -> Result<Net, Fail>
    ensures { IfOk result (λ net. net.k ≡ 14) }
{
    let right = pair(alloc, leaf(1, kind), leaf(2, Kind::Res))?;
    let net = Net::new(14, 5461, leaf(0, Kind::Src), right, Outlet::Load(2))?;
    Ok(net)
}

// A branch of a lattice: a source and a resistor.
fn branch(m: u32) -> Result<Net, Fail>
    ensures { IfOk result (λ net. net.k ≡ 14) }
{
    let net = Net::new(
        14,
        m,
        leaf(0, Kind::Src),
        leaf(1, Kind::Res),
        Outlet::Source,
    )?;
    Ok(net)
}

// ---- runs

fn fits(alloc: Global, net: &Net, plan: &Plan) -> Result<(), Fail>
    requires { plan.now.k ≡ net.now.k }
    ensures { OnOk result (Fits net.now plan.now) }
{
    let ratios = enclose(alloc, net)?;
    plan_check(alloc, net, &ratios, plan)?;
    Ok(())
}

fn ladder(alloc: Global, net: Net, plan: &Plan, head: &Head) -> Result<WaveRun, Fail>
    requires width { plan.now.k ≡ net.k }
    requires head { IsPcmHead head.now }
    requires bits { head.now.bits ≡ plan.now.bits }
    requires frames { head.now.frames ≤ plan.now.frames }
    ensures { IfOk result IsFresh }
{
    fits(alloc, &net, plan)?;
    let sources = net.source_count();
    if sources > 1 && usize::from(head.channels) != sources {
        return Err(Fail::new("other channels"));
    }
    let run = WaveRun::new(alloc, Networks::Ladder(net), plan, head)?;
    Ok(run)
}

fn lattice(alloc: Global, a: Net, b: Net, plan: &Plan, head: &Head) -> Result<WaveRun, Fail>
    requires first { plan.now.k ≡ a.k }
    requires second { plan.now.k ≡ b.k }
    requires head { IsPcmHead head.now }
    requires bits { head.now.bits ≡ plan.now.bits }
    requires frames { head.now.frames ≤ plan.now.frames }
    ensures { IfOk result IsFresh }
{
    fits(alloc, &a, plan)?;
    fits(alloc, &b, plan)?;
    if a.source_count() != 1 || b.source_count() != 1 {
        return Err(Fail::new("other sources"));
    }
    let run = WaveRun::new(alloc, Networks::Lattice { a, b }, plan, head)?;
    Ok(run)
}

#[derive(Clone, Copy)]
enum Circuit {
    Divider,
    // A source, and this and a load in parallel.
    Tee(Kind),
    // Branches of a microohm and a megohm.
    Lattice,
}

// A run, with multipliers of 14 bits and a plan for 10,000 frames.
fn run_of(
    alloc: Global,
    circuit: Circuit,
    guard: u8,
    amp: u32,
    head: &Head,
) -> Result<WaveRun, Fail>
    requires head { IsPcmHead head.now }
    requires frames { head.now.frames ≤ 10000 }
    ensures { IfOk result IsFresh }
{
    let Some(plan) = Plan::new(14, guard, 0, 10000, amp, head.bits as u8) else {
        return Err(Fail::new("no plan"));
    };
    match circuit {
        Circuit::Divider => ladder(alloc, divider()?, &plan, head),
        Circuit::Tee(kind) => ladder(alloc, tee(alloc, kind)?, &plan, head),
        Circuit::Lattice => lattice(alloc, branch(1)?, branch(16383)?, &plan, head),
    }
}

fn width(is_byte: bool) -> u16
    ensures { IsSampleWidth result }
{
    if is_byte { 8 } else { 16 }
}

fn data_bytes(head: &Head) -> Option<u32>
    ensures { IfSome result (λ size. size ≡ data_size head.now) }
{
    let frame = head.channels.checked_mul(head.bits / 8)?;
    head.frames.checked_mul(u32::from(frame))
}

// The head, where it has not too many frames.
fn short(head: Head) -> Result<Head, Fail>
    requires format { IsFrameFormat head.channels head.bits }
    requires rate { head.rate ≤ 1000000 }
    ensures pcm { IfOk result IsPcmHead }
    ensures few { IfOk result (λ h. h.frames ≤ 10000) }
{
    match data_bytes(&head) {
        Some(size) if size < 0xFFFF_FF00 && head.frames <= 10000 => Ok(head),
        _ => Err(Fail::new("too many frames")),
    }
}

// A head of samples of 8 or 16 bits.
fn head(channels: u16, is_byte: bool, frames: u32) -> Result<Head, Fail>
    ensures pcm { IfOk result IsPcmHead }
    ensures few { IfOk result (λ h. h.frames ≤ 10000) }
{
    if channels < 1 || channels > 8 {
        return Err(Fail::new("no channels"));
    }
    short(Head {
        channels,
        rate: 48000,
        bits: width(is_byte),
        frames,
    })
}

// Some bytes, then zeros, and then others.
fn bytes(alloc: Global, front: &[u8], zeros: usize, tail: &[u8]) -> Result<Vec<u8>, AllocError> {
    let mut bytes = front.to_vec(alloc)?;
    for _ in 0..zeros {
        bytes.push(0)?;
    }
    bytes.extend_from_slice(tail)?;
    Ok(bytes)
}

fn calls(alloc: Global, call: Option<u64>) -> Result<Vec<u64>, AllocError> {
    match call {
        Some(call) => Ok(vec![in alloc; call]?),
        None => Ok(Vec::new(alloc)),
    }
}

// A wave of so many channels and frames runs through a circuit. So many zeros and then `read` are
// read, in pieces, and the same zeros and then `written` are written behind the header of `runs`
// channels: all of it, or so many bytes of its front as are `held`. At most 8 of the bytes that are left
// in the input are counted. `ledger` has totals of runs.
#[derive(Clone, Copy)]
struct Case {
    circuit: Circuit,
    guard: u8,
    amp: u32,
    is_byte: bool,
    channels: u16,
    frames: u32,
    piece: usize,
    zeros: usize,
    read: &'static [u8],
    read_fails: Option<u64>,
    write_fails: Option<u64>,
    room: usize,
    answer: Result<(), FrameStop>,
    left: usize,
    limited: u64,
    runs: u16,
    written: &'static [u8],
    held: Option<usize>,
    ledger: &'static [(Side, usize, Option<Totals>)],
}

const DONE: Case = Case {
    circuit: Circuit::Divider,
    guard: 4,
    amp: 1000,
    is_byte: false,
    channels: 1,
    frames: 0,
    piece: 10000,
    zeros: 0,
    read: &[],
    read_fails: None,
    write_fails: None,
    room: 40000,
    answer: Ok(()),
    left: 0,
    limited: 0,
    runs: 1,
    written: &[],
    held: None,
    ledger: &[],
};

// The run of a case at rest, what it reads, and what it is to write.
fn run_for(alloc: Global, case: &Case) -> Result<WaveRun, Fail>
    ensures { IfOk result IsFresh }
{
    let head = head(case.channels, case.is_byte, case.frames)?;
    run_of(alloc, case.circuit, case.guard, case.amp, &head)
}

fn input_for(alloc: Global, case: &Case) -> Result<MemSource, Fail> {
    let data = bytes(alloc, &[], case.zeros, case.read)?;
    let fails = calls(alloc, case.read_fails)?;
    Ok(MemSource::new(data, fails, case.piece.max(1)))
}

fn written_for(alloc: Global, case: &Case) -> Result<Vec<u8>, Fail> {
    let head = head(case.runs, case.is_byte, case.frames)?;
    let written = bytes(alloc, &head_bytes(&head), case.zeros, case.written)?;
    Ok(written)
}

// The run's answer alone.
fn answer(run: &mut WaveRun, input: &mut MemSource, out: &mut MemSink) -> Result<(), FrameStop>
    requires { IsFresh run.old }
{
    run.write(input, out)
}

// What the run tells besides its answer.
fn expect_told(rt: &impl Abort, run: &WaveRun, case: &Case) {
    assert_eq!(rt; run.limited(), case.limited);
    for (side, number, totals) in case.ledger {
        assert_eq!(rt; run.totals(*side, *number), *totals);
    }
}

fn expect_left(rt: &impl Abort, input: &mut MemSource, left: usize) {
    assert_eq!(rt; take_exact(input, &mut [0; 8]), Ok(left));
}

fn output_for(alloc: Global, case: &Case) -> Result<MemSink, Fail> {
    let fails = calls(alloc, case.write_fails)?;
    let out = MemSink::new(alloc, fails, case.piece.max(1), case.room)?;
    Ok(out)
}

fn expect_answer(rt: &impl Abort, answer: Result<(), FrameStop>, case: &Case) {
    assert_eq!(rt; answer, case.answer);
}

// Lets the run of a case write, and looks at what it tells and at what it leaves in its input.
fn expect_run(rt: &impl Abort, alloc: Global, case: &Case, out: &mut MemSink) -> Result<(), Fail> {
    let mut run = run_for(alloc, case)?;
    let mut input = input_for(alloc, case)?;
    expect_answer(rt, answer(&mut run, &mut input, out), case);
    expect_told(rt, &run, case);
    expect_left(rt, &mut input, case.left);
    Ok(())
}

fn expect_written(rt: &impl Abort, alloc: Global, case: &Case, out: &[u8]) -> Result<(), Fail> {
    let written = written_for(alloc, case)?;
    match case.held {
        None => assert!(rt; out == written.as_slice()),
        Some(held) => {
            assert_eq!(rt; out.len(), held);
            assert!(rt; written.starts_with(out));
        }
    }
    Ok(())
}

fn expect(rt: &impl Abort, alloc: Global, case: &Case) -> Result<(), Fail> {
    let mut out = output_for(alloc, case)?;
    expect_run(rt, alloc, case, &mut out)?;
    expect_written(rt, alloc, case, out.bytes())
}

fn expect_all(rt: &impl Abort, alloc: Global, cases: &[Case]) -> Result<(), Fail> {
    for case in cases {
        expect(rt, alloc, case)?;
    }
    Ok(())
}

// Where the energy of the runs below went, worked by hand. Of a pulse the squares sum to 88731881 at
// the source and to 178188521 at the load, and the capacitor's last is 1473796.
const PULSE: Totals = Totals {
    incident: 268435456,
    absorbed: 266936716,
    stored: 1473930,
};

const SILENCE: Totals = Totals {
    incident: 0,
    absorbed: 0,
    stored: 0,
};

// At the sources they sum to 128268245 and 119268245, at the load to 1944641344.
const TWO_SOURCES: Totals = Totals {
    incident: 2192352596,
    absorbed: 1096133219,
    stored: 0,
};

// At each source to 275066738180, at the resistors to 4097 and to 1100401286148.
const MICROOHM: Totals = Totals {
    incident: 275133906944,
    absorbed: 275133859330,
    stored: 0,
};

const MEGOHM: Totals = Totals {
    incident: 275133906944,
    absorbed: 275133905444,
    stored: 0,
};

// All at the load: 5, -1 and -128, by 16.
const MATCHED: Totals = Totals {
    incident: 4200960,
    absorbed: 4200960,
    stored: 0,
};

// Worked by hand.
static WORKED: [Case; 5] = [
    // A pulse in the last frame of the first block: the response of a source, a capacitor and a load
    // to 16384 is 10922, 7281, -2426, and goes on in the second block.
    Case {
        circuit: Circuit::Tee(Kind::Cap),
        guard: 0,
        amp: 16384,
        frames: 4098,
        zeros: 8190,
        read: &[0, 0x40, 0, 0, 0, 0],
        written: &[0xaa, 0x2a, 0x71, 0x1c, 0x86, 0xf6],
        ledger: &[
            (Side::Whole, 0, Some(PULSE)),
            (Side::Whole, 1, None),
            (Side::A, 0, None),
        ],
        ..DONE
    },
    // The same response in three of five channels, each of which has a state of its own.
    Case {
        circuit: Circuit::Tee(Kind::Cap),
        guard: 0,
        amp: 16384,
        channels: 5,
        frames: 3,
        piece: 1,
        read: b"\0\x40\0\xc0\0\0\0\0\0\x40\0\0\0\0\0\0\0\0\0\0\0\0\0\0\0\0\0\0\0\0",
        runs: 5,
        written: b"\xaa\x2a\x56\xd5\0\0\0\0\xaa\x2a\x71\x1c\x8f\xe3\0\0\0\0\x71\x1c\x86\xf6\x7a\x09\0\0\0\0\x86\xf6",
        ledger: &[
            (Side::Whole, 0, Some(PULSE)),
            (Side::Whole, 1, Some(PULSE)),
            (Side::Whole, 2, Some(SILENCE)),
            (Side::Whole, 4, Some(PULSE)),
            (Side::Whole, 5, None),
        ],
        ..DONE
    },
    // Two channels drive the two sources of one run: 3000 and 6000 give 6000, 3 and -3 give 0, and
    // 32767 twice comes to 43688, which is limited.
    Case {
        circuit: Circuit::Tee(Kind::Src),
        guard: 0,
        amp: 32768,
        channels: 2,
        frames: 3,
        read: b"\xb8\x0b\x70\x17\x03\0\xfd\xff\xff\x7f\xff\x7f",
        limited: 1,
        written: &[0x70, 0x17, 0, 0, 0xff, 0x7f],
        ledger: &[(Side::Whole, 0, Some(TWO_SOURCES)), (Side::Whole, 1, None)],
        ..DONE
    },
    // 1000 gives 999, and -32768 gives -32764.
    Case {
        circuit: Circuit::Lattice,
        amp: 32768,
        frames: 2,
        read: &[0xe8, 3, 0, 0x80],
        written: &[0xe7, 3, 4, 0x80],
        ledger: &[
            (Side::A, 0, Some(MICROOHM)),
            (Side::B, 0, Some(MEGOHM)),
            (Side::B, 1, None),
            (Side::Whole, 0, None),
        ],
        ..DONE
    },
    // Data of three bytes has a pad byte behind it; that of the input is not read.
    Case {
        amp: 128,
        is_byte: true,
        frames: 3,
        read: &[133, 127, 0, 99],
        left: 1,
        written: &[133, 127, 0, 0],
        ledger: &[(Side::Whole, 0, Some(MATCHED))],
        ..DONE
    },
];

#[test]
fn circuits_give_what_was_worked_by_hand(rt: HostRuntime) -> Result<(), Fail> {
    expect_all(&rt, rt.alloc(), &WORKED)
}

// One channel of samples of at most 1000 through a divider, which gives what it is given.
static MONO: [Case; 8] = [
    // Just a block, and a frame more.
    Case {
        frames: 4096,
        zeros: 8190,
        read: &[7, 1, 9],
        left: 1,
        written: &[7, 1],
        ..DONE
    },
    Case {
        frames: 4097,
        piece: 1,
        zeros: 8190,
        read: &[7, 1, 0xe8, 3, 9],
        left: 1,
        written: &[7, 1, 0xe8, 3],
        ..DONE
    },
    Case {
        frames: 0,
        left: 1,
        read: &[9],
        ..DONE
    },
    // The end of the input before the first frame, in the second block, and within a frame of it.
    Case {
        frames: 5,
        answer: Err(FrameStop::Truncated { frames: 0 }),
        ..DONE
    },
    Case {
        frames: 4099,
        zeros: 8192,
        read: &[7, 1],
        answer: Err(FrameStop::Truncated { frames: 4097 }),
        written: &[7, 1],
        ..DONE
    },
    Case {
        frames: 4098,
        zeros: 8192,
        read: &[7, 1, 9],
        answer: Err(FrameStop::Truncated { frames: 4097 }),
        written: &[7, 1],
        ..DONE
    },
    // A failing read in the second block: the first is written. In the first: only the header is.
    Case {
        frames: 4098,
        piece: 8192,
        zeros: 8190,
        read: &[7, 1, 3, 3],
        read_fails: Some(1),
        answer: Err(FrameStop::ReadFault),
        left: 2,
        written: &[7, 1],
        ..DONE
    },
    Case {
        frames: 2,
        piece: 1,
        read: &[7, 1, 3, 3],
        read_fails: Some(3),
        answer: Err(FrameStop::ReadFault),
        left: 1,
        ..DONE
    },
];

#[test]
fn one_channel_ends_in_each_way(rt: HostRuntime) -> Result<(), Fail> {
    expect_all(&rt, rt.alloc(), &MONO)
}

// Two channels of samples of at most 1000, in 5000 frames. Of two that are over it the first is told,
// and the frames before its own are written.
static STEREO: [Case; 4] = [
    Case {
        channels: 2,
        frames: 5000,
        runs: 2,
        zeros: 16388,
        read: b"\xe8\x03\xe9\x03\xe9\x03\0\0",
        answer: Err(FrameStop::Amplitude {
            frame: 4097,
            channel: 1,
            sample: 1001,
        }),
        written: &[],
        ..DONE
    },
    Case {
        channels: 2,
        frames: 5000,
        runs: 2,
        read: b"\x18\xfc\xe8\x03\x17\xfc\xe9\x03",
        answer: Err(FrameStop::Amplitude {
            frame: 1,
            channel: 0,
            sample: -1001,
        }),
        written: &[0x18, 0xfc, 0xe8, 3],
        ..DONE
    },
    Case {
        channels: 2,
        frames: 5000,
        runs: 2,
        zeros: 16384,
        read: b"\0\x80\0\0",
        answer: Err(FrameStop::Amplitude {
            frame: 4096,
            channel: 0,
            sample: -32768,
        }),
        written: &[],
        ..DONE
    },
    // In a part of a frame it is not looked at.
    Case {
        channels: 2,
        frames: 5000,
        runs: 2,
        read: b"\x18\xfc\xe8\x03\x17\xfc",
        answer: Err(FrameStop::Truncated { frames: 1 }),
        written: &[0x18, 0xfc, 0xe8, 3],
        ..DONE
    },
];

#[test]
fn the_first_sample_over_amp_ends_a_run(rt: HostRuntime) -> Result<(), Fail> {
    expect_all(&rt, rt.alloc(), &STEREO)
}

// Silence at the lowest value, in data of odd size, into an output that fails.
const LOWEST: Case = Case {
    amp: 128,
    is_byte: true,
    frames: 4101,
    zeros: 4101,
    answer: Err(FrameStop::WriteFault),
    ..DONE
};

// At the header, at the first block and the second, at the pad byte, and where the room ends within
// the header and within the second block.
static OUTPUTS: [Case; 6] = [
    Case {
        write_fails: Some(0),
        left: 8,
        held: Some(0),
        ..LOWEST
    },
    Case {
        write_fails: Some(1),
        left: 5,
        held: Some(44),
        ..LOWEST
    },
    Case {
        write_fails: Some(2),
        held: Some(44 + 4096),
        ..LOWEST
    },
    Case {
        write_fails: Some(3),
        held: Some(44 + 4101),
        ..LOWEST
    },
    Case {
        room: 20,
        left: 8,
        held: Some(20),
        ..LOWEST
    },
    Case {
        room: 44 + 4099,
        held: Some(44 + 4099),
        ..LOWEST
    },
];

#[test]
fn an_output_may_fail(rt: HostRuntime) -> Result<(), Fail> {
    expect_all(&rt, rt.alloc(), &OUTPUTS)
}
