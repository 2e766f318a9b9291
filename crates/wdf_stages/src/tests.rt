ghost use Rattle.std.specs.Prelude.{◌≤◌};

use super::*;
use std::alloc::Global;
use std::process::Abort;
use std::test::*;
use wdf_bounds::Plan;
use wdf_io::{MemShelf, MemSink, MemSource, NoMemory, SureShelf, SureSource};
use wdf_law::Side;
use wdf_netlist::{NetFault, NetKind, Netlist};
use wdf_text::Name;
use wdf_wav::WavKind;

fn named(alloc: Global, name: &str, bytes: &[u8]) -> Result<(String, Vec<u8>), NoMemory> {
    Ok((String::from_str(alloc, name)?, bytes.to_vec(alloc)?))
}

// A name and its word, and why no file is loaded by it.
static FILES: [(&str, usize, Option<FileStop>); 5] = [
    ("full", 1, None),
    ("over", 2, Some(FileStop::FileTooLarge { word: 2 })),
    ("none", 3, Some(FileStop::Missing { word: 3 })),
    ("full", 4, Some(FileStop::LoadFault)),
    ("full", 5, None),
];

#[test]
fn a_file_has_at_most_1048576_bytes(rt: HostRuntime) -> Result<(), Fail> {
    let alloc = rt.alloc();
    let files = vec![in alloc;
        (
            String::from_str(alloc, "full")?,
            vec![in alloc; 7; 1_048_576]?
        ),
        (
            String::from_str(alloc, "over")?,
            vec![in alloc; 7; 1_048_577]?
        ),
    ]?;
    let mut shelf = MemShelf::new(files, vec![in alloc; 3]?);
    for (name, word, want) in &FILES {
        let loaded = load_file(alloc, &mut shelf, *word, name);
        if let Ok(bytes) = &loaded {
            assert_eq!(rt; bytes.len(), 1_048_576);
        }
        assert_eq!(rt; loaded.err(), *want, "{name} in word {word}");
    }
    Ok(())
}

// What a shelf with one file of this text loads by its name.
fn loaded(alloc: Global, text: &str) -> Result<Netlist, NetlistStop> {
    let Ok(file) = named(alloc, "net", text.as_bytes()) else {
        return Err(NetlistStop::NoMemory);
    };
    let Ok(files) = vec![in alloc; file] else {
        return Err(NetlistStop::NoMemory);
    };
    load_netlist(alloc, &mut SureShelf::new(files), 1, "net")
}

const DIVIDER: &str = "rate 48000\nsource S a 0 1\nr L a 0 1\nload L\n";

// The same without its last line.
const UNLOADED: &str = "rate 48000\nsource S a 0 1\nr L a 0 1\n";

#[test]
fn a_netlist_is_loaded_or_has_a_fault(rt: HostRuntime) {
    let alloc = rt.alloc();
    let netlist = loaded(alloc, DIVIDER);
    assert!(rt; netlist.is_ok_and(|netlist| netlist.rate() == 48000));
    let fault = NetFault {
        kind: NetKind::NoLoad,
        line: 0,
        column: 0,
        name: None,
    };
    assert_eq!(rt;
        loaded(alloc, UNLOADED).err(),
        Some(NetlistStop::NetText { fault })
    );
    let mut shelf = SureShelf::new(Vec::new(alloc));
    let missing = load_netlist(alloc, &mut shelf, 2, "net").err();
    assert_eq!(rt; missing, Some(NetlistStop::Missing { word: 2 }));
}

fn name(text: &str) -> Option<Name> {
    Name::new(text.as_bytes())
}

// A bridge between a source and a load, and a load of 0.4 picoohm and of 5 megohm.
const BRIDGE: &str =
    "rate 48000\nsource S a 0 1\nr R1 a b 1\nr R2 a c 1\nr R3 b c 1\nr R4 b 0 1\nr R5 c 0 1\nload R3\n";

const LOW: &str = "rate 48000\nsource S a 0 1\nr L a 0 0.4p\nload L\n";

const HIGH: &str = "rate 48000\nsource S a 0 1\nr L a 0 5M\nload L\n";

// Branch A has a port out of range, branch B no shape.
const LATTICE: &str =
    "rate 48000\nlattice 1\nbranch A p n\nr RA p n 5M\nbranch B p n\nr RB p n 1\nr D n x 1\n";

// There is no shape: a core of so many edges is left, which is named by the element.
fn is_core(stop: &DesignStop, at: Side, named: &str, edges: usize) -> bool {
    match stop {
        DesignStop::NotSeriesParallel {
            side,
            element,
            core,
        } => *side == at && Some(*element) == name(named) && core.list().len() == edges,
        _ => false,
    }
}

// The port of the element is out of range.
fn is_out_of_range(stop: &DesignStop, named: &str, below: bool) -> bool {
    match stop {
        DesignStop::PortRange { side, element, low } => {
            *side == Side::Whole && Some(*element) == name(named) && *low == below
        }
        _ => false,
    }
}

#[test]
fn refused_designs_name_an_element(rt: HostRuntime) -> Result<(), Fail> {
    let alloc = rt.alloc();
    for (text, at, element, edges) in [(BRIDGE, Side::Whole, "R1", 5), (LATTICE, Side::B, "D", 2)] {
        match design_networks(alloc, &loaded(alloc, text)?, 14) {
            Err(stop) => assert!(rt; is_core(&stop, at, element, edges), "{text}"),
            Ok(_) => assert!(rt; false, "{text}"),
        }
    }
    for (text, below) in [(LOW, true), (HIGH, false)] {
        match design_networks(alloc, &loaded(alloc, text)?, 14) {
            Err(stop) => assert!(rt; is_out_of_range(&stop, "L", below), "{text}"),
            Ok(_) => assert!(rt; false, "{text}"),
        }
    }
    Ok(())
}

// Twenty-four resistors beside a source.
fn crowd(alloc: Global) -> Result<String, NoMemory> {
    let mut text = String::from_str(alloc, "rate 48000\nsource S a 0 1\n")?;
    for i in 1..25 {
        text.push_str(&format!(in alloc; "r R{i} a 0 1\n")?)?;
    }
    text.push_str("load R1\n")?;
    Ok(text)
}

// What stops a plan of a netlist.
fn bound_stop(
    rt: &impl Abort,
    alloc: Global,
    text: &str,
    k: u8,
    plan: Option<Plan>,
) -> Result<Option<BoundStop>, Fail>
    requires { (1 ≤ k) × (k ≤ 20) }
{
    let netlist = loaded(alloc, text)?;
    let Some(plan) = plan else {
        assert!(rt; false, "a plan");
        return Ok(None);
    };
    assert!(rt; plan.k() == k);
    match design_networks(alloc, &netlist, k) {
        Ok(networks) => Ok(bound_words(alloc, &netlist, &networks, &plan).err()),
        Err(_) => {
            assert!(rt; false, "networks");
            Ok(None)
        }
    }
}

// At the port of the element a limit is exceeded.
fn is_over(stop: &Option<BoundStop>, named: &str, over: (bool, u128, u64)) -> bool {
    match stop {
        Some(
            BoundStop::Bound {
                side,
                element,
                ratio,
                need,
                limit,
            },
        ) => {
            *side == Side::Whole && Some(*element) == name(named) && (*ratio, *need, *limit) == over
        }
        _ => false,
    }
}

#[test]
fn a_plan_is_bounded_or_names_an_element(rt: HostRuntime) -> Result<(), Fail> {
    let alloc = rt.alloc();
    let plan = Plan::new(14, 4, 0, 67_108_864, 32_768, 16);
    assert_eq!(rt; bound_stop(&rt, alloc, DIVIDER, 14, plan)?, None);

    let wide = Plan::new(16, 8, 0, 67_108_864, 2_147_483_648, 32);
    let stop = bound_stop(&rt, alloc, DIVIDER, 16, wide)?;
    let word = (false, 4_503_599_627_370_496, 17_592_186_044_416);
    assert!(rt; is_over(&stop, "S", word), "{stop:?}");

    let coarse = Plan::new(1, 4, 0, 67_108_864, 32_768, 16);
    let stop = bound_stop(&rt, alloc, &crowd(alloc)?, 1, coarse)?;
    let number = (true, 9_223_372_036_854_775_808, 4_611_686_018_427_387_904);
    assert!(rt; is_over(&stop, "R1", number), "{stop:?}");
    Ok(())
}

// Two sources and a load.
const MIXER: &str = "rate 48000\nsource S a 0 1\ninput T a 0 1\nr L a 0 1\nload L\n";

// The head of a wave of 16 bits, of 1 or 2 channels and so many bytes of data.
fn head(rate: [u8; 2], channels: u8, bytes: u8) -> [u8; 44] {
    let mut head =
        *b"RIFF\0\0\0\0WAVEfmt \x10\0\0\0\x01\0\0\0\0\0\0\0\0\0\0\0\0\0\x10\0data\0\0\0\0";
    head[22] = channels;
    head[24] = rate[0];
    head[25] = rate[1];
    head[32] = if channels == 1 { 2 } else { 4 };
    head[40] = bytes;
    head
}

const RATE_48000: [u8; 2] = [0x80, 0xbb];

const RATE_44100: [u8; 2] = [0x44, 0xac];

// A netlist, and the rate, the channels, the bytes of data of a wave, and why no wave of more than 3
// frames is run: the rate comes before the channels, and these before the length.
static OPENINGS: [(&str, [u8; 2], u8, u8, Option<OpenStop>); 10] = [
    (DIVIDER, RATE_48000, 1, 6, None),
    (DIVIDER, RATE_48000, 2, 12, None),
    (MIXER, RATE_48000, 2, 12, None),
    (
        DIVIDER,
        RATE_44100,
        1,
        6,
        Some(OpenStop::RateMismatch {
            netlist: 48000,
            wave: 44100,
        }),
    ),
    (
        DIVIDER,
        RATE_44100,
        1,
        8,
        Some(OpenStop::RateMismatch {
            netlist: 48000,
            wave: 44100,
        }),
    ),
    (
        MIXER,
        RATE_44100,
        1,
        8,
        Some(OpenStop::RateMismatch {
            netlist: 48000,
            wave: 44100,
        }),
    ),
    (
        MIXER,
        RATE_48000,
        1,
        6,
        Some(OpenStop::ChannelCount { have: 1, want: 2 }),
    ),
    (
        MIXER,
        RATE_48000,
        1,
        8,
        Some(OpenStop::ChannelCount { have: 1, want: 2 }),
    ),
    (
        MIXER,
        RATE_48000,
        2,
        16,
        Some(OpenStop::TooLong {
            frames: 4,
            limit: 3,
        }),
    ),
    (
        DIVIDER,
        RATE_48000,
        1,
        8,
        Some(OpenStop::TooLong {
            frames: 4,
            limit: 3,
        }),
    ),
];

#[test]
fn a_wave_is_opened_by_its_rate_channels_and_length(rt: HostRuntime) -> Result<(), Fail> {
    let alloc = rt.alloc();
    for (text, rate, channels, bytes, want) in &OPENINGS {
        let netlist = loaded(alloc, text)?;
        let bytes = head(*rate, *channels, *bytes).to_vec(alloc)?;
        let opened = open_wave(&mut SureSource::new(bytes), &netlist, 3);
        assert_eq!(rt; opened.err(), *want, "{text}");
    }
    let netlist = loaded(alloc, DIVIDER)?;
    let mut short = SureSource::new(b"RIFF".to_vec(alloc)?);
    let stop = open_wave(&mut short, &netlist, 3).err();
    let want = OpenStop::BadWave {
        kind: WavKind::ShortHead,
        at: 4,
    };
    assert_eq!(rt; stop, Some(want));
    let mut failing = MemSource::new(Vec::new(alloc), vec![in alloc; 0]?, 1);
    assert_eq!(rt;
        open_wave(&mut failing, &netlist, 3).err(),
        Some(OpenStop::ReadFault)
    );
    Ok(())
}

#[test]
fn the_note_gains_the_line_or_a_front(rt: HostRuntime) -> Result<(), Fail> {
    let alloc = rt.alloc();
    let mut note = MemSink::new(alloc, Vec::new(alloc), 3, 80)?;
    note_line(&mut note, b"wdf: 20 memory\n");
    assert!(rt; note.bytes() == b"wdf: 20 memory\n".as_slice());
    let mut note = MemSink::new(alloc, vec![in alloc; 2]?, 3, 80)?;
    note_line(&mut note, b"wdf: 20 memory\n");
    assert!(rt; note.bytes() == b"wdf: 2".as_slice());
    Ok(())
}
