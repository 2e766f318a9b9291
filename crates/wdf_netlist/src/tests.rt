use super::*;
use std::alloc::Global;
use std::process::Abort;
use std::test::*;
use wdf_law::{Kind, Outlet};
use wdf_text::{MAX_TEXT, Name};

fn reads(rt: &impl Abort, alloc: Global, text: &[u8]) -> Result<Netlist, ReadError> {
    assert!(rt; text.len() <= MAX_TEXT);
    read(alloc, text)
}

// A line of the table: a text, and the kind, line, column and name of its fault.
type Faulty = (&'static str, NetKind, u32, u32, &'static str);

const START: &str = "rate 48000\nsource S a 0 1\n";

// Lines behind a rate and a source, which are lines 1 and 2.
const LADDERS: [Faulty; 26] = [
    ("x\n", NetKind::Syntax, 3, 1, ""),
    ("R L a 0 1\n", NetKind::Syntax, 3, 1, ""),
    ("branch A a b\n", NetKind::Syntax, 3, 1, ""),
    ("lattice 1\n", NetKind::Syntax, 3, 1, ""),
    ("* r\n\n\tr L a 0 \n", NetKind::Syntax, 5, 9, "L"),
    ("load L x\n", NetKind::Syntax, 3, 8, "L"),
    ("load\r\n", NetKind::Syntax, 3, 5, ""),
    ("rate 1\n", NetKind::DoubleRate, 3, 1, ""),
    ("source T a 0 1\n", NetKind::DoubleSource, 3, 1, ""),
    ("load L\nload M\n", NetKind::DoubleLoad, 4, 1, ""),
    ("root S\n shallow\n", NetKind::DoubleRoot, 4, 2, ""),
    ("r \u{3a9} a 0 1\n", NetKind::BadName, 3, 3, ""),
    ("r L \u{3a9} 0 1\n", NetKind::BadName, 3, 5, "L"),
    ("r L a 12345678901234567 1\n", NetKind::BadName, 3, 7, "L"),
    ("r S a 0 1\n", NetKind::DoubleName, 3, 3, "S"),
    ("c X a a 1u\n", NetKind::Shorted, 3, 7, "X"),
    ("r L a 0 1234567891\n", NetKind::BadValue, 3, 9, "L"),
    ("r L a 0 10000M\n", NetKind::BadValue, 3, 9, "L"),
    ("r L a 0 u\n", NetKind::BadValue, 3, 9, "L"),
    ("r \u{3a9}\nr L a 0 1q\n", NetKind::BadName, 3, 3, ""),
    ("r L a 0 1q\n", NetKind::UnknownUnit, 3, 9, "L"),
    ("r L a 0 0.0k\n", NetKind::ZeroValue, 3, 9, "L"),
    ("r L a 0 1", NetKind::NoLoad, 0, 0, ""),
    ("load x\n", NetKind::LoadUnknown, 3, 6, "x"),
    (
        "input T a 0 1\n load T\n",
        NetKind::LoadNotResistor,
        4,
        7,
        "T",
    ),
    (
        "r L a 0 1\nload L\nroot a\n",
        NetKind::RootUnknown,
        5,
        6,
        "a",
    ),
];

const WHOLE: [Faulty; 14] = [
    ("", NetKind::NoRate, 0, 0, ""),
    ("rate 1\n", NetKind::NoSource, 0, 0, ""),
    ("rate 0\n", NetKind::RateRange, 1, 6, ""),
    ("rate 1000001\n", NetKind::RateRange, 1, 6, ""),
    (
        "input T a 0 1\nsource S a 0 1\n",
        NetKind::InputFirst,
        1,
        1,
        "",
    ),
    ("lattice 1\nsource S a b 1\n", NetKind::Syntax, 2, 1, ""),
    ("lattice 1\ninput S a b 1\n", NetKind::Syntax, 2, 1, ""),
    ("lattice 1\nr R a b 1\n", NetKind::Syntax, 2, 1, ""),
    ("lattice 1\nbranch B a b\n", NetKind::Syntax, 2, 8, ""),
    (
        "lattice 1\nbranch A a b\nbranch B a b\nbranch B a b\n",
        NetKind::Syntax,
        4,
        8,
        "",
    ),
    (
        "rate 1\nlattice 1\nbranch A a b\nr R a b 1\n",
        NetKind::NoBranch,
        0,
        0,
        "",
    ),
    (
        "rate 1\nlattice 1\nbranch A a b\nbranch B a b\n",
        NetKind::EmptyBranch,
        0,
        0,
        "",
    ),
    (
        "rate 1\nlattice 1\nbranch A a b\nr R a b 1\nroot x\nbranch B a b\nr x a b 1\n",
        NetKind::RootUnknown,
        5,
        6,
        "x",
    ),
    (
        "rate 1\nlattice 1\nbranch A a b\nr R a b 1\nbranch B a b\nr x a b 1\nroot R\n",
        NetKind::RootUnknown,
        7,
        6,
        "R",
    ),
];

fn is_faulty(rt: &impl Abort, alloc: Global, text: &[u8], faulty: &Faulty) {
    let (_, kind, line, column, name) = *faulty;
    let want = NetFault {
        kind,
        line,
        column,
        name: Name::new(name.as_bytes()),
    };
    assert_eq!(rt;
        reads(rt, alloc, text).err(),
        Some(ReadError::Fault(want)),
        "{text:?}"
    );
}

#[test]
fn each_kind_of_fault_is_told_with_its_place(rt: HostRuntime) -> Result<(), Fail> {
    let alloc = rt.alloc();
    for faulty in &LADDERS {
        let mut text = Vec::new(alloc);
        text.extend_from_slice(START.as_bytes())?;
        text.extend_from_slice(faulty.0.as_bytes())?;
        is_faulty(&rt, alloc, &text, faulty);
    }
    for faulty in &WHOLE {
        is_faulty(&rt, alloc, faulty.0.as_bytes(), faulty);
    }
    Ok(())
}

// A text that begins with a rate and a source, has so many lines of a keyword, and ends with a load.
fn many(alloc: Global, keyword: &str, count: u32) -> Result<Vec<u8>, Fail> {
    let mut text = Vec::new(alloc);
    text.extend_from_slice(START.as_bytes())?;
    for i in 0..count {
        let line = format!(in alloc; "{keyword} E{i} a 0 1\n")?;
        text.extend_from_slice(line.as_bytes())?;
    }
    text.extend_from_slice(b"r L a 0 1\nload L\n")?;
    Ok(text)
}

#[test]
fn one_too_many_is_told(rt: HostRuntime) -> Result<(), Fail> {
    let alloc = rt.alloc();
    for (keyword, count) in [("r", 126), ("l", 64), ("c", 64), ("input", 7)] {
        let text = many(alloc, keyword, count)?;
        assert!(rt; reads(&rt, alloc, &text).is_ok(), "{keyword}");
    }
    let too_many = [
        ("r", 128, NetKind::TooManyElements, 130, "E127"),
        ("l", 65, NetKind::TooManyStates, 67, "E64"),
        ("c", 65, NetKind::TooManyStates, 67, "E64"),
        ("input", 8, NetKind::TooManyInputs, 10, "E7"),
    ];
    for (keyword, count, kind, line, name) in too_many {
        let text = many(alloc, keyword, count)?;
        is_faulty(&rt, alloc, &text, &("", kind, line, 1, name));
    }
    Ok(())
}

// An element's name, kind, nodes, digits and exponent.
type Stands = (&'static str, Kind, u32, u32, u64, i8);

fn has_elements(rt: &impl Abort, circuit: &Circuit, want: &[Stands]) {
    let elements = circuit.elements();
    assert_eq!(rt; elements.len(), want.len());
    for (element, stands) in elements.iter().zip(want) {
        let (name, kind, from, to, digits, exp) = *stands;
        assert_eq!(rt; element.name.as_bytes(), name.as_bytes());
        assert_eq!(rt; element.kind, kind, "{name}");
        assert_eq!(rt; (element.from, element.to), (from, to), "{name}");
        assert_eq!(rt;
            (element.value.digits, element.value.exp),
            (digits, exp),
            "{name}"
        );
    }
}

fn has_nodes(rt: &impl Abort, circuit: &Circuit, want: &[&str]) {
    let nodes = circuit.nodes();
    assert_eq!(rt; nodes.len(), want.len());
    for (node, name) in nodes.iter().zip(want) {
        assert_eq!(rt; node.as_bytes(), name.as_bytes());
    }
}

const LOW_PASS: &str =
    "* a low pass\r\nload RL\nrate 48000\nroot c1\nsource V1 in 0 50\n\tr  C1 in out 4.7k\r\nc c1 out 0 10n\ninput V2 V1 0 .5\nr RL out V1 1M\r";

#[test]
fn a_ladder_is_read(rt: HostRuntime) {
    let alloc = rt.alloc();
    match reads(&rt, alloc, LOW_PASS.as_bytes()) {
        Err(error) => panic!(rt; "{error:?}"),
        Ok(netlist) => {
            assert_eq!(rt; netlist.rate(), 48_000);
            match netlist.form() {
                Form::Lattice { .. } => panic!(rt; "it is a ladder"),
                Form::Ladder(circuit) => {
                    has_nodes(&rt, circuit, &["in", "0", "out", "V1"]);
                    has_elements(
                        &rt,
                        circuit,
                        &[
                            ("V1", Kind::Src, 0, 1, 5, 1),
                            ("C1", Kind::Res, 0, 2, 47, 2),
                            ("c1", Kind::Cap, 2, 1, 1, -8),
                            ("V2", Kind::Src, 3, 1, 5, -1),
                            ("RL", Kind::Res, 2, 3, 1, 6),
                        ],
                    );
                    assert_eq!(rt; circuit.outlet(), Outlet::Load(4));
                    assert_eq!(rt; circuit.root(), RootChoice::Element(2));
                    assert_eq!(rt; (circuit.source(), circuit.source_count()), (0, 2));
                    assert_eq!(rt; circuit.source_at(1), Some(3));
                    assert_eq!(rt; circuit.source_at(2), None);
                }
            }
        }
    }
}

const LATTICE: &str =
    "lattice 600\nbranch A a b\nc C a b 100n\nshallow\nbranch B b a\nl L b x 36m\nr L2 x a 1\nrate 44100\nroot L2\n";

#[test]
fn a_lattice_is_read(rt: HostRuntime) {
    let alloc = rt.alloc();
    match reads(&rt, alloc, LATTICE.as_bytes()) {
        Err(error) => panic!(rt; "{error:?}"),
        Ok(netlist) => match netlist.form() {
            Form::Ladder(_) => panic!(rt; "it is a lattice"),
            Form::Lattice { a, b } => {
                has_nodes(&rt, a, &["a", "b"]);
                has_elements(
                    &rt,
                    a,
                    &[("@", Kind::Src, 0, 1, 6, 2), ("C", Kind::Cap, 0, 1, 1, -7)],
                );
                assert_eq!(rt;
                    (a.outlet(), a.root()),
                    (Outlet::Source, RootChoice::Shallow)
                );
                has_nodes(&rt, b, &["b", "a", "x"]);
                has_elements(
                    &rt,
                    b,
                    &[
                        ("@", Kind::Src, 0, 1, 6, 2),
                        ("L", Kind::Ind, 0, 2, 36, -3),
                        ("L2", Kind::Res, 2, 1, 1, 0),
                    ],
                );
                assert_eq!(rt;
                    (b.outlet(), b.root()),
                    (Outlet::Source, RootChoice::Element(2))
                );
            }
        },
    }
}

#[test]
fn a_text_of_the_greatest_length_is_read(rt: HostRuntime) -> Result<(), Fail> {
    let alloc = rt.alloc();
    let absent = ("", NetKind::NoRate, 0, 0, "");
    let unknown = ("", NetKind::Syntax, 1, 1, "");
    for (byte, faulty) in [
        (b'\n', absent),
        (b' ', absent),
        (b'*', absent),
        (b'x', unknown),
    ] {
        let text = vec![in alloc; byte; MAX_TEXT]?;
        is_faulty(&rt, alloc, &text, &faulty);
    }
    Ok(())
}

// A text, and the canonical text of the netlist that it stands for.
const PRINTED: [(&str, &str); 3] = [
    (
        "rate 50000\nsource S a 0 1\nc C a 0 10u\nr L a 0 1\nload L",
        "rate 50000\nsource S a 0 1\nc C a 0 0.00001\nr L a 0 1\nload L\n",
    ),
    (
        LOW_PASS,
        "rate 48000\nsource V1 in 0 50\nr C1 in out 4700\nc c1 out 0 0.00000001\ninput V2 V1 0 0.5\nr RL out V1 1000000\nload RL\nroot c1\n",
    ),
    (
        LATTICE,
        "rate 44100\nlattice 600\nbranch A a b\nc C a b 0.0000001\nshallow\nbranch B b a\nl L b x 0.036\nr L2 x a 1\nroot L2\n",
    ),
];

#[test]
fn the_canonical_text_is_printed(rt: HostRuntime) -> Result<(), Fail> {
    let alloc = rt.alloc();
    for (text, want) in PRINTED {
        match reads(&rt, alloc, text.as_bytes()) {
            Err(error) => panic!(rt; "{error:?}"),
            Ok(netlist) => {
                let printed = print(alloc, &netlist)?;
                assert_eq!(rt; printed.as_slice(), want.as_bytes(), "{text}");
            }
        }
    }
    Ok(())
}
