ghost use Rattle.std.specs.Prelude.{◌≡◌};
ghost use Rattle.wdf_report.specs.FaultLine.{HasFaultLine};

use super::*;
use std::alloc::Global;
use std::process::Abort;
use std::test::*;
use wdf_check::{CertFault, Kernel};
use wdf_law::{Kind, Shape, Side};
use wdf_netlist::{NetFault, NetKind};
use wdf_sp::{Edge, Edges};
use wdf_text::Name;
use wdf_wav::WavKind;

// The exit status stands in the line.
fn says(rt: &impl Abort, status: &Status, line: &str)
    requires { HasFaultLine status.now }
{
    let said = fault_line(status);
    assert_eq!(rt; said.as_bytes(), line.as_bytes(), "{line}");
}

fn name(bytes: &[u8]) -> Name {
    Name::new(bytes).unwrap_or(Name::at_sign())
}

fn net_fault(kind: NetKind, line: u32, column: u32, name: Option<Name>) -> NetFault {
    NetFault {
        kind,
        line,
        column,
        name,
    }
}

// So many edges.
fn core(alloc: Global, count: u32) -> Result<Edges, Fail> {
    let mut list = Vec::new(alloc);
    for elem in 0..count {
        list.push(Edge {
            shape: Shape::Leaf {
                elem,
                kind: Kind::Res,
                flip: false,
            },
            from: 0,
            to: 1,
        })?;
    }
    Ok(Edges::new(list))
}

#[test]
fn a_circuit_that_cannot_run_is_told(rt: HostRuntime) -> Result<(), Fail> {
    let alloc = rt.alloc();
    let word = Status::Usage {
        word: 2,
        kind: UsageKind::OutOfRange,
    };
    says(&rt, &word, "wdf: 1 usage word 2 OutOfRange\n");
    let shorted = Status::NetText {
        fault: net_fault(NetKind::Shorted, 3, 7, Some(name(b"X"))),
    };
    says(&rt, &shorted, "wdf: 2 netlist line 3 column 7 Shorted X\n");
    let no_load = Status::NetText {
        fault: net_fault(NetKind::NoLoad, 0, 0, None),
    };
    says(&rt, &no_load, "wdf: 2 netlist line 0 column 0 NoLoad\n");
    let bridge = Status::NotSeriesParallel {
        side: Side::Whole,
        element: name(b"R1"),
        core: core(alloc, 5)?,
    };
    says(
        &rt,
        &bridge,
        "wdf: 3 not series-parallel element R1 core 5\n",
    );
    let low = Status::PortRange {
        side: Side::A,
        element: name(b"L"),
        low: true,
    };
    says(&rt, &low, "wdf: 4 port range branch A element L low\n");
    let word = Status::Bound {
        side: Side::Whole,
        element: name(b"S"),
        ratio: false,
        need: 4_503_599_627_370_496,
        limit: 17_592_186_044_416,
    };
    says(
        &rt,
        &word,
        "wdf: 5 bound element S word need 4503599627370496 limit 17592186044416\n",
    );
    let ratio = Status::Bound {
        side: Side::B,
        element: name(b"abcdefghijklmnop"),
        ratio: true,
        need: u128::MAX,
        limit: u64::MAX,
    };
    says(
        &rt,
        &ratio,
        "wdf: 5 bound branch B element abcdefghijklmnop ratio need 340282366920938463463374607431768211455 limit 18446744073709551615\n",
    );
    Ok(())
}

#[test]
fn a_wave_that_cannot_run_is_told(rt: HostRuntime) {
    let tag = Status::BadWave {
        kind: WavKind::BadTag,
        at: 20,
    };
    says(&rt, &tag, "wdf: 6 wave offset 20 BadTag\n");
    let rates = Status::RateMismatch {
        netlist: 48000,
        wave: 44100,
    };
    says(&rt, &rates, "wdf: 7 rate netlist 48000 wave 44100\n");
    let long = Status::TooLong {
        frames: 4,
        limit: 3,
    };
    says(&rt, &long, "wdf: 8 too long frames 4 limit 3\n");
    let loud = Status::Amplitude {
        frame: 3,
        channel: 0,
        sample: 1001,
    };
    says(
        &rt,
        &loud,
        "wdf: 9 amplitude frame 3 channel 0 sample 1001\n",
    );
    let loudest = Status::Amplitude {
        frame: u32::MAX,
        channel: u16::MAX,
        sample: i64::MIN,
    };
    says(
        &rt,
        &loudest,
        "wdf: 9 amplitude frame 4294967295 channel 65535 sample -9223372036854775808\n",
    );
    let short = Status::Truncated { frames: 2 };
    says(&rt, &short, "wdf: 10 truncated frames 2\n");
    let channels = Status::ChannelCount { have: 1, want: 2 };
    says(&rt, &channels, "wdf: 23 channels have 1 want 2\n");
}

// A certificate that is refused.
fn wrong(side: Side, fault: CertFault) -> Status
    ensures { result ≡ Status.CertWrong side fault }
{
    Status::CertWrong { side, fault }
}

#[test]
fn a_certificate_that_is_refused_is_told(rt: HostRuntime) {
    let hidden = Status::Unobservable {
        side: Side::Whole,
        element: name(b"C2"),
        kernel: Kernel::new(Vec::new(rt.alloc())),
    };
    says(&rt, &hidden, "wdf: 11 unobservable state C2\n");
    let text = Status::CertText {
        at: 8,
        range: false,
    };
    says(&rt, &text, "wdf: 12 certificate offset 8 syntax\n");
    let number = Status::CertText { at: 8, range: true };
    says(&rt, &number, "wdf: 12 certificate offset 8 range\n");
    let other = CertFault::OtherNet {
        at: 0,
        ours: 13,
        theirs: 14,
    };
    let other = wrong(Side::Whole, other);
    says(
        &rt,
        &other,
        "wdf: 13 certificate wrong net at 0 ours 13 theirs 14\n",
    );
    let size = wrong(Side::B, CertFault::WrongSize { have: 1, want: 2 });
    says(
        &rt,
        &size,
        "wdf: 13 certificate wrong branch B size have 1 want 2\n",
    );
    let count = wrong(Side::Whole, CertFault::WrongCount { have: 1, want: 2 });
    says(
        &rt,
        &count,
        "wdf: 13 certificate wrong count have 1 want 2\n",
    );
    let row = wrong(Side::A, CertFault::BadRow { row: 7 });
    says(&rt, &row, "wdf: 13 certificate wrong branch A row 7\n");
    let product = CertFault::WrongProduct {
        row: 0,
        col: 0,
        got: 1_537_275_585_305_247_745,
    };
    let product = wrong(Side::Whole, product);
    says(
        &rt,
        &product,
        "wdf: 13 certificate wrong product row 0 column 0 got 1537275585305247745\n",
    );
}

#[test]
fn a_failure_is_told(rt: HostRuntime) {
    says(&rt, &Status::Done, "");
    says(&rt, &Status::ReadFault, "wdf: 14 read fault\n");
    says(&rt, &Status::WriteFault, "wdf: 15 write fault\n");
    says(&rt, &Status::NoteFault, "wdf: 16 note fault\n");
    says(&rt, &Status::LoadFault, "wdf: 17 load fault\n");
    let missing = Status::Missing { word: 1 };
    says(&rt, &missing, "wdf: 18 missing word 1\n");
    let large = Status::FileTooLarge { word: 1 };
    says(&rt, &large, "wdf: 19 file too large word 1\n");
    says(&rt, &Status::NoMemory, "wdf: 20 no memory\n");
}
