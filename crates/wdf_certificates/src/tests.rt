ghost use Rattle.std.specs.Prelude.{◌≤◌};

use super::*;
use std::alloc::Global;
use std::process::Abort;
use std::test::*;
use wdf_cert::Certs;
use wdf_check::CertFault;
use wdf_io::{MemShelf, NoMemory, SureShelf};
use wdf_lattice::Networks;
use wdf_law::Side;
use wdf_netlist::Netlist;
use wdf_stages::{design_networks, load_netlist};
use wdf_text::Name;

// A file of the shelf.
fn file(alloc: Global, name: &str, text: &str) -> Result<(String, Vec<u8>), NoMemory> {
    Ok((
        String::from_str(alloc, name)?,
        text.as_bytes().to_vec(alloc)?,
    ))
}

fn netlist(alloc: Global, text: &str) -> Result<Netlist, Fail> {
    let mut shelf = SureShelf::new(vec![in alloc; file(alloc, "net", text)?]?);
    Ok(load_netlist(alloc, &mut shelf, 1, "net")?)
}

fn certs(alloc: Global, text: &str) -> Result<Certs, Fail> {
    let mut shelf = SureShelf::new(vec![in alloc; file(alloc, "cert", text)?]?);
    Ok(load_certs(alloc, &mut shelf, 2, "cert")?)
}

// What the check of a file of certificates says of the networks of a netlist.
fn checked(
    rt: &impl Abort,
    alloc: Global,
    text: &str,
    k: u8,
    cert: &str,
) -> Result<Option<CheckStop>, Fail>
    requires { (1 ≤ k) × (k ≤ 20) }
{
    match design_networks(alloc, &netlist(alloc, text)?, k) {
        Ok(networks) => Ok(check_certs(alloc, &networks, &certs(alloc, cert)?).err()),
        Err(_) => panic!(rt; "no networks"),
    }
}

// The text of the certificates of a netlist, or what stands in their way.
fn certified(
    rt: &impl Abort,
    alloc: Global,
    text: &str,
) -> Result<Result<Vec<u8>, CertifyStop>, Fail> {
    let netlist = netlist(alloc, text)?;
    match design_networks(alloc, &netlist, 14) {
        Ok(networks) => Ok(certify(alloc, &netlist, &networks)),
        Err(_) => panic!(rt; "no networks"),
    }
}

// A capacitor across a load, both as large as the source's resistance.
const ONE_CAPACITOR: &str = "rate 50000\nsource S a 0 1\nc C a 0 10u\nr L a 0 1\nload L\n";

const ONE_CAPACITOR_CERT: &str =
    "wdfcert 1\nk 14\nmultipliers 2 5461 8192\nrows 1 0\ninverse\n1153027054501986302\nend\n";

// The same with a wrong entry.
const WRONG_ENTRY_CERT: &str =
    "wdfcert 1\nk 14\nmultipliers 2 5461 8192\nrows 1 0\ninverse\n1153027054501986303\nend\n";

const TELEPHONE_BAND: &str =
    "rate 48000\nsource S in 0 600\nl L1 in a 43.6m\nc C1 a b 570n\nl L2 b 0 205m\nc C2 b 0 121n\nr L b 0 600\nload L\n";

const TELEPHONE_BAND_CERT: &str = "wdfcert 1\n\
k 14\n\
multipliers 5 14369 16097 16313 14336 71\n\
rows 4 0 1 2 3\n\
inverse\n\
470843471787585138 576460752303423488 1169599368430078109 1729382256910270463\n\
504199199434047405 1729382256910270463 1169599368430078109 1729382256910270463\n\
1615500383339853805 1790855938745444445 1615500383339853805 686649427290999340\n\
1133239442659825874 727932452112201954 1172603566553868077 1739190939220833921\n\
end\n";

const TWO_SOURCES: &str =
    "rate 48000\nsource MIC in 0 600\nr R1 in out 1k\ninput LINE aux 0 600\nr R2 aux out 2.2k\nr L out 0 10k\nload L\n";

const TWO_SOURCES_CERT: &str =
    "wdfcert 1\nk 14\nmultipliers 4 13789 5140 12800 12873\nrows 0\ninverse\nend\n";

const LATTICE: &str =
    "rate 48000\nlattice 600\nbranch A p n\nl L1 p n 31.8m\nc C1 p n 88.4n\nbranch B p n\nc C2 p n 88.4n\n";

const BRANCH_A_CERT: &str = "wdfcert 1\n\
k 14\n\
multipliers 2 2605 609\n\
rows 2 0 1\n\
inverse\n\
1464548576647948020 1710656615398178068\n\
544806849871729736 871879707674965781\n\
end\n";

const BRANCH_B_CERT: &str =
    "wdfcert 1\nk 14\nmultipliers 1 2689\nrows 1 0\ninverse\n1093233929085397213\nend\n";

// One text behind another.
fn both(alloc: Global, first: &str, second: &str) -> Result<String, NoMemory> {
    let mut text = String::from_str(alloc, first)?;
    text.push_str(second)?;
    Ok(text)
}

#[test]
fn netlists_have_the_certificates_of_another_program(rt: HostRuntime) -> Result<(), Fail> {
    let alloc = rt.alloc();
    let lattice_cert = both(alloc, BRANCH_A_CERT, BRANCH_B_CERT)?;
    for (text, cert) in [
        (ONE_CAPACITOR, ONE_CAPACITOR_CERT),
        (TELEPHONE_BAND, TELEPHONE_BAND_CERT),
        (TWO_SOURCES, TWO_SOURCES_CERT),
        (LATTICE, lattice_cert.as_str()),
    ] {
        match certified(&rt, alloc, text)? {
            Ok(written) => assert!(rt; written.as_slice() == cert.as_bytes(), "{text}"),
            Err(_) => panic!(rt; "{text}"),
        }
        assert_eq!(rt; checked(&rt, alloc, text, 14, cert)?, None, "{text}");
    }
    Ok(())
}

// Whether the second state, that of the element of this name, is the first that nothing sees, and
// its difference from the first is not seen.
fn is_unseen(stop: &CertifyStop, at: Side, named: &str) -> bool {
    match stop {
        CertifyStop::Unobservable {
            side,
            element,
            kernel,
        } => {
            *side == at
                && Some(*element) == Name::new(named.as_bytes())
                && kernel.list() == [2_305_843_009_213_693_950, 1].as_slice()
        }
        CertifyStop::NoMemory => false,
    }
}

// Two equal capacitors across each other: their difference is not seen.
const TWO_CAPACITORS: &str =
    "rate 50000\nsource S a 0 1\nc C1 a 0 10u\nc C2 a 0 10u\nr L a 0 1\nload L\n";

const UNSEEN_IN_B: &str =
    "rate 50000\nlattice 1\nbranch A p n\nc A1 p n 10u\nbranch B p n\nc B1 p n 10u\nc B2 p n 10u\n";

const UNSEEN_IN_BOTH: &str =
    "rate 50000\nlattice 1\nbranch A p n\nc A1 p n 10u\nc A2 p n 10u\nbranch B p n\nc B1 p n 10u\nc B2 p n 10u\n";

#[test]
fn the_first_state_that_nothing_sees_is_named(rt: HostRuntime) -> Result<(), Fail> {
    let alloc = rt.alloc();
    for (text, at, named) in [
        (TWO_CAPACITORS, Side::Whole, "C2"),
        (UNSEEN_IN_B, Side::B, "B2"),
        (UNSEEN_IN_BOTH, Side::A, "A2"),
    ] {
        match certified(&rt, alloc, text)? {
            Err(stop) => assert!(rt; is_unseen(&stop, at, named), "{text}"),
            Ok(_) => panic!(rt; "{text}"),
        }
    }
    Ok(())
}

// What is wrong at a side.
fn wrong(side: Side, fault: CertFault) -> Option<CheckStop> {
    Some(CheckStop::CertWrong { side, fault })
}

#[test]
fn other_certificates_are_refused(rt: HostRuntime) -> Result<(), Fail> {
    let alloc = rt.alloc();
    let swapped = both(alloc, BRANCH_B_CERT, BRANCH_A_CERT)?;
    let twice = both(alloc, BRANCH_A_CERT, BRANCH_A_CERT)?;
    let entry = CertFault::WrongProduct {
        row: 0,
        col: 0,
        got: 1_537_275_585_305_247_745,
    };
    let width = CertFault::OtherNet {
        at: 0,
        ours: 13,
        theirs: 14,
    };
    let multiplier = CertFault::OtherNet {
        at: 1,
        ours: 5461,
        theirs: 2605,
    };
    let many = CertFault::WrongCount { have: 2, want: 1 };
    let few = CertFault::WrongCount { have: 1, want: 2 };
    let short = CertFault::WrongSize { have: 1, want: 2 };
    let long = CertFault::WrongSize { have: 2, want: 1 };
    for (text, k, cert, want) in [
        (
            ONE_CAPACITOR,
            14,
            WRONG_ENTRY_CERT,
            wrong(Side::Whole, entry),
        ),
        (
            ONE_CAPACITOR,
            13,
            ONE_CAPACITOR_CERT,
            wrong(Side::Whole, width),
        ),
        (
            ONE_CAPACITOR,
            14,
            BRANCH_A_CERT,
            wrong(Side::Whole, multiplier),
        ),
        (ONE_CAPACITOR, 14, twice.as_str(), wrong(Side::Whole, many)),
        (LATTICE, 14, BRANCH_A_CERT, wrong(Side::Whole, few)),
        (LATTICE, 14, swapped.as_str(), wrong(Side::A, short)),
        (LATTICE, 14, twice.as_str(), wrong(Side::B, long)),
    ] {
        assert_eq!(rt; checked(&rt, alloc, text, k, cert)?, want, "{cert}");
    }
    Ok(())
}

// A name and its word, and why no certificates are loaded by it.
static FILES: [(&str, usize, Option<LoadStop>); 7] = [
    ("cert", 2, None),
    ("none", 3, Some(LoadStop::Missing { word: 3 })),
    ("large", 4, Some(LoadStop::FileTooLarge { word: 4 })),
    (
        "version",
        2,
        Some(LoadStop::CertText {
            at: 8,
            range: false,
        }),
    ),
    (
        "width",
        2,
        Some(LoadStop::CertText {
            at: 12,
            range: true,
        }),
    ),
    (
        "three",
        2,
        Some(LoadStop::CertText {
            at: 160,
            range: false,
        }),
    ),
    ("cert", 2, Some(LoadStop::LoadFault)),
];

#[test]
fn files_that_are_none_of_certificates_are_refused(rt: HostRuntime) -> Result<(), Fail> {
    let alloc = rt.alloc();
    let two = both(alloc, ONE_CAPACITOR_CERT, ONE_CAPACITOR_CERT)?;
    let files = vec![in alloc;
        file(alloc, "cert", ONE_CAPACITOR_CERT)?,
        (
            String::from_str(alloc, "large")?,
            vec![in alloc; 10; 1_048_577]?
        ),
        file(alloc, "version", "wdfcert 2\n")?,
        file(alloc, "width", "wdfcert 1\nk 21\n")?,
        file(alloc, "three", &both(alloc, &two, ONE_CAPACITOR_CERT)?)?,
    ]?;
    let mut shelf = MemShelf::new(files, vec![in alloc; 6]?);
    for (name, word, want) in &FILES {
        let stop = load_certs(alloc, &mut shelf, *word, name).err();
        assert_eq!(rt; stop, *want, "{name}");
    }
    Ok(())
}
