ghost use Rattle.std.specs.Prelude.{◌≤◌};

use super::*;
use std::alloc::{AllocError, Global};
use std::process::Abort;
use std::test::*;
use wdf_check::{Cert, CertFault, check, observe};
use wdf_law::{Kind, Net, Outlet, Tree};

fn leaf(elem: u32, kind: Kind) -> Tree {
    Tree::Leaf {
        elem,
        kind,
        flip: false,
    }
}

fn series(alloc: Global, m: u32, l: Tree, r: Tree) -> Result<Tree, AllocError> {
    Ok(Tree::Series {
        m,
        l: Box::new(alloc, l)?,
        r: Box::new(alloc, r)?,
    })
}

fn parallel(alloc: Global, m: u32, l: Tree, r: Tree) -> Result<Tree, AllocError> {
    Ok(Tree::Parallel {
        m,
        l: Box::new(alloc, l)?,
        r: Box::new(alloc, r)?,
    })
}

// A source of 1 ohm with a capacitor and a load of 1 ohm across it.
fn one_capacitor(alloc: Global) -> Result<Net, Fail> {
    let right = parallel(alloc, 8192, leaf(1, Kind::Cap), leaf(2, Kind::Res))?;
    Ok(Net::new(14, 5461, leaf(0, Kind::Src), right, Outlet::Load(2))?)
}

const ONE_CAPACITOR: &[u8] =
    b"wdfcert 1\nk 14\nmultipliers 2 5461 8192\nrows 1 0\ninverse\n1153027054501986302\nend\n";

const DIVIDER: &[u8] = b"wdfcert 1\n\
k 14\n\
multipliers 1 1820\n\
rows 0\n\
inverse\n\
end\n";

const RC_LOW_PASS: &[u8] = b"wdfcert 1\n\
k 14\n\
multipliers 2 1531 16215\n\
rows 1 0\n\
inverse\n\
210611095127889380\n\
end\n";

const HUM_NOTCH: &[u8] = b"wdfcert 1\n\
k 14\n\
multipliers 3 8166 102 16383\n\
rows 2 0 2\n\
inverse\n\
1848553179668701657 362768185431149665\n\
268246541317307036 362768185431149665\n\
end\n";

const CROSSOVER_WOOFER: &[u8] = b"wdfcert 1\n\
k 14\n\
multipliers 3 16361 16034 13293\n\
rows 2 0 1\n\
inverse\n\
1679689685478373650 1152921504606846976\n\
531573442767879772 972259841017283879\n\
end\n";

const CROSSOVER_TWEETER: &[u8] = b"wdfcert 1\n\
k 14\n\
multipliers 3 16205 3375 1700\n\
rows 2 0 1\n\
inverse\n\
1205267594724036091 1152921504606846975\n\
625885205236700561 938613742574044827\n\
end\n";

const PHONO_EQUALISER: &[u8] = b"wdfcert 1\n\
k 14\n\
multipliers 5 16275 16193 15010 16365 15878\n\
rows 2 0 2\n\
inverse\n\
526251182452561006 467464262267812087\n\
679807905277671141 1522512791824938114\n\
end\n";

const TELEPHONE_BAND: &[u8] = b"wdfcert 1\n\
k 14\n\
multipliers 5 14369 16097 16313 14336 71\n\
rows 4 0 1 2 3\n\
inverse\n\
470843471787585138 576460752303423488 1169599368430078109 1729382256910270463\n\
504199199434047405 1729382256910270463 1169599368430078109 1729382256910270463\n\
1615500383339853805 1790855938745444445 1615500383339853805 686649427290999340\n\
1133239442659825874 727932452112201954 1172603566553868077 1739190939220833921\n\
end\n";

const TWO_SOURCES: &[u8] = b"wdfcert 1\n\
k 14\n\
multipliers 4 13789 5140 12800 12873\n\
rows 0\n\
inverse\n\
end\n";

const BUTTERWORTH_LADDER: &[u8] = b"wdfcert 1\n\
k 14\n\
multipliers 4 2647 16079 16124 13695\n\
rows 3 0 1 2\n\
inverse\n\
1036868202746146927 374483396869384648 809974717235616655\n\
894129627975927179 2116621456119955456 569043564381865383\n\
723334722675976519 924199791347206550 901889470475881998\n\
end\n";

const LADDER_LOW_PASS: &[u8] = b"wdfcert 1\n\
k 14\n\
multipliers 8 4422 15065 15734 15791 15793 15750 15384 11686\n\
rows 7 0 1 2 3 4 5 6\n\
inverse\n\
289063319219161869 504519416252348885 1292389474377938904 2241376619703583690 1438928171282674740 1700797651810914360 237639399859285471\n\
1654185106850463449 1417939498908869637 73708744861207240 371271584480449585 261866303650314300 658172111821767171 205254639549767611\n\
871592152683783308 355335218301373203 937942110439525641 2244259650486095144 1264393332423358724 1319124472059877901 2296862886147992957\n\
1815595678655957123 1872591182753046683 2289602110954472072 1911756937730976487 2030869770356366511 1775178993571075406 1354995447963577088\n\
268003153742484684 1039300368504419634 829788167609007887 52168909931554094 2259963017916564212 563273480138073847 591415338078920015\n\
1337067523336311798 1317957162382949215 1512647539138877656 415570425674776806 618997904495500254 2053328442480486577 1525202884313094028\n\
761284804950983441 270846382147248538 1248344475907314942 362032303463496039 1471214765431990734 2095189583284786092 267600638075835293\n\
end\n";

const BUTTERWORTH_LATTICE: &[u8] = b"wdfcert 1\n\
k 14\n\
multipliers 2 2605 609\n\
rows 2 0 1\n\
inverse\n\
1464548576647948020 1710656615398178068\n\
544806849871729736 871879707674965781\n\
end\n\
wdfcert 1\n\
k 14\n\
multipliers 1 2689\n\
rows 1 0\n\
inverse\n\
1093233929085397213\n\
end\n";

const FAULTS: &[(&[u8], CertTextFault)] = &[
    (b"", CertTextFault::Syntax { at: 0 }),
    (b"wdfcert 2\n", CertTextFault::Syntax { at: 8 }),
    (b"wdfcert  1\n", CertTextFault::Syntax { at: 8 }),
    (b"wdfcert 1\r\n", CertTextFault::Syntax { at: 8 }),
    (b"wdfcert 1\nk 0\n", CertTextFault::Range { at: 12 }),
    (b"wdfcert 1\nk 21\n", CertTextFault::Range { at: 12 }),
    (b"wdfcert 1\nk 014\n", CertTextFault::Syntax { at: 12 }),
    (
        b"wdfcert 1\nk 14\nmultipliers 0\n",
        CertTextFault::Range { at: 27 },
    ),
    (
        b"wdfcert 1\nk 14\nmultipliers 1 16384\n",
        CertTextFault::Range { at: 29 },
    ),
    (
        b"wdfcert 1\nk 14\nmultipliers 1 1 1\n",
        CertTextFault::Syntax { at: 30 },
    ),
    (
        b"wdfcert 1\nk 14\nmultipliers 2 5461 8192\nrows 1 0\n",
        CertTextFault::Syntax { at: 48 },
    ),
    (
        b"wdfcert 1\nk 14\nmultipliers 2 5461 8192\nrows 1 0\ninverse\n2305843009213693951\nend\n",
        CertTextFault::Range { at: 56 },
    ),
    (
        b"wdfcert 1\nk 14\nmultipliers 2 5461 8192\nrows 1 0\ninverse\n99999999999999999999\nend\n",
        CertTextFault::Range { at: 56 },
    ),
    (
        b"wdfcert 1\nk 14\nmultipliers 2 5461 8192\nrows 1 0\ninverse\n999999999999999999999\nend\n",
        CertTextFault::Syntax { at: 56 },
    ),
    (
        b"wdfcert 1\nk 14\nmultipliers 2 5461 8192\nrows 1 0\ninverse\n1\n\nend\n",
        CertTextFault::Syntax { at: 58 },
    ),
    (
        b"wdfcert 1\nk 14\nmultipliers 2 5461 8192\nrows 1 0\ninverse\n1\nend",
        CertTextFault::Syntax { at: 61 },
    ),
    (
        b"wdfcert 1\nk 14\nmultipliers 2 5461 8192\nrows 1 0\ninverse\n1\nend\n\n",
        CertTextFault::Syntax { at: 62 },
    ),
    (
        b"wdfcert 1\nk 14\nmultipliers 2 5461 8192\nrows 1 0\ninverse\n1\nend\nwdfcert 1\nk",
        CertTextFault::Syntax { at: 73 },
    ),
];

fn rc_low_pass(alloc: Global) -> Result<Net, Fail> {
    let right = parallel(alloc, 16_215, leaf(1, Kind::Cap), leaf(2, Kind::Res))?;
    Ok(Net::new(14, 1531, leaf(0, Kind::Src), right, Outlet::Load(2))?)
}

fn hum_notch(alloc: Global) -> Result<Net, Fail> {
    let trap = series(alloc, 16_383, leaf(1, Kind::Ind), leaf(2, Kind::Cap))?;
    let right = parallel(alloc, 102, trap, leaf(3, Kind::Res))?;
    Ok(Net::new(14, 8166, leaf(0, Kind::Src), right, Outlet::Load(3))?)
}

fn crossover_woofer(alloc: Global) -> Result<Net, Fail> {
    let load = parallel(alloc, 13_293, leaf(2, Kind::Cap), leaf(3, Kind::Res))?;
    let right = series(alloc, 16_034, leaf(1, Kind::Ind), load)?;
    Ok(Net::new(14, 16_361, leaf(0, Kind::Src), right, Outlet::Load(3))?)
}

fn crossover_tweeter(alloc: Global) -> Result<Net, Fail> {
    let load = parallel(alloc, 1700, leaf(2, Kind::Ind), leaf(3, Kind::Res))?;
    let right = series(alloc, 3375, leaf(1, Kind::Cap), load)?;
    Ok(Net::new(14, 16_205, leaf(0, Kind::Src), right, Outlet::Load(3))?)
}

fn phono_equaliser(alloc: Global) -> Result<Net, Fail> {
    let first = parallel(alloc, 16_365, leaf(2, Kind::Cap), leaf(5, Kind::Res))?;
    let second = series(alloc, 15_878, leaf(3, Kind::Res), leaf(4, Kind::Cap))?;
    let load = parallel(alloc, 15_010, first, second)?;
    let right = series(alloc, 16_193, leaf(1, Kind::Res), load)?;
    Ok(Net::new(14, 16_275, leaf(0, Kind::Src), right, Outlet::Load(5))?)
}

fn telephone_band(alloc: Global) -> Result<Net, Fail> {
    let low = series(alloc, 16_313, leaf(1, Kind::Ind), leaf(2, Kind::Cap))?;
    let high = parallel(alloc, 71, leaf(3, Kind::Ind), leaf(4, Kind::Cap))?;
    let load = parallel(alloc, 14_336, high, leaf(5, Kind::Res))?;
    let right = series(alloc, 16_097, low, load)?;
    Ok(Net::new(14, 14_369, leaf(0, Kind::Src), right, Outlet::Load(5))?)
}

// The two branches of a lattice.
fn lattice_a(alloc: Global) -> Result<Net, Fail> {
    let right = parallel(alloc, 609, leaf(1, Kind::Ind), leaf(2, Kind::Cap))?;
    Ok(Net::new(14, 2605, leaf(0, Kind::Src), right, Outlet::Source)?)
}

fn lattice_b() -> Result<Net, Fail> {
    Ok(Net::new(
        14,
        2689,
        leaf(0, Kind::Src),
        leaf(1, Kind::Cap),
        Outlet::Source,
    )?)
}

fn two_sources(alloc: Global) -> Result<Net, Fail> {
    let second = series(alloc, 12_873, leaf(2, Kind::Src), leaf(3, Kind::Res))?;
    let load = parallel(alloc, 12_800, second, leaf(4, Kind::Res))?;
    let right = series(alloc, 5140, leaf(1, Kind::Res), load)?;
    Ok(Net::new(14, 13_789, leaf(0, Kind::Src), right, Outlet::Load(4))?)
}

fn butterworth_ladder(alloc: Global) -> Result<Net, Fail> {
    let end = parallel(alloc, 13_695, leaf(3, Kind::Cap), leaf(4, Kind::Res))?;
    let middle = series(alloc, 16_124, leaf(2, Kind::Ind), end)?;
    let right = parallel(alloc, 16_079, leaf(1, Kind::Cap), middle)?;
    Ok(Net::new(14, 2647, leaf(0, Kind::Src), right, Outlet::Load(4))?)
}

fn ladder_low_pass(alloc: Global) -> Result<Net, Fail> {
    let end = parallel(alloc, 11_686, leaf(7, Kind::Cap), leaf(8, Kind::Res))?;
    let sixth = series(alloc, 15_384, leaf(6, Kind::Ind), end)?;
    let fifth = parallel(alloc, 15_750, leaf(5, Kind::Cap), sixth)?;
    let fourth = series(alloc, 15_793, leaf(4, Kind::Ind), fifth)?;
    let third = parallel(alloc, 15_791, leaf(3, Kind::Cap), fourth)?;
    let second = series(alloc, 15_734, leaf(2, Kind::Ind), third)?;
    let right = parallel(alloc, 15_065, leaf(1, Kind::Cap), second)?;
    Ok(Net::new(14, 4422, leaf(0, Kind::Src), right, Outlet::Load(8))?)
}

// The certificate of a text of one.
fn only(alloc: Global, text: &[u8]) -> Result<Cert, Fail> {
    Ok(read(alloc, text)?.first)
}

// A network's certificate has this text, and is accepted.
fn certifies(rt: &impl Abort, alloc: Global, net: &Net, text: &[u8]) -> Result<(), Fail> {
    let Ok(cert) = make(alloc, net) else {
        panic!(rt; "no certificate");
    };
    assert_eq!(rt; check(alloc, net, &cert), Ok(()));
    assert_eq!(rt; write(alloc, &cert)?.as_slice(), text);
    let certs = read(alloc, text)?;
    assert_eq!(rt; write(alloc, &certs.first)?.as_slice(), text);
    assert!(rt; certs.second.is_none());
    Ok(())
}

#[test]
fn networks_have_the_certificates_of_another_program(rt: HostRuntime) -> Result<(), Fail> {
    let alloc = rt.alloc();
    let divider = Net::new(
        14,
        1820,
        leaf(0, Kind::Src),
        leaf(1, Kind::Res),
        Outlet::Load(1),
    )?;
    certifies(&rt, alloc, &divider, DIVIDER)?;
    certifies(&rt, alloc, &one_capacitor(alloc)?, ONE_CAPACITOR)?;
    certifies(&rt, alloc, &rc_low_pass(alloc)?, RC_LOW_PASS)?;
    certifies(&rt, alloc, &hum_notch(alloc)?, HUM_NOTCH)?;
    certifies(&rt, alloc, &crossover_woofer(alloc)?, CROSSOVER_WOOFER)?;
    certifies(&rt, alloc, &crossover_tweeter(alloc)?, CROSSOVER_TWEETER)?;
    certifies(&rt, alloc, &phono_equaliser(alloc)?, PHONO_EQUALISER)?;
    certifies(&rt, alloc, &telephone_band(alloc)?, TELEPHONE_BAND)?;
    certifies(&rt, alloc, &two_sources(alloc)?, TWO_SOURCES)?;
    certifies(&rt, alloc, &butterworth_ladder(alloc)?, BUTTERWORTH_LADDER)?;
    certifies(&rt, alloc, &ladder_low_pass(alloc)?, LADDER_LOW_PASS)?;
    Ok(())
}

// The matrix of the network of one capacitor has one column, with the same entry twice.
fn sees_twice(rt: &impl Abort, alloc: Global, net: &Net) -> Result<(), Fail> {
    let matrix = observe(alloc, net)?;
    if matrix.rows() != 2 || matrix.cols() != 1 {
        panic!(rt; "another shape");
    }
    assert_eq!(rt; matrix.at(0, 0), 1_537_275_585_305_247_744);
    assert_eq!(rt; matrix.at(1, 0), 1_537_275_585_305_247_744);
    Ok(())
}

#[test]
fn certificates_are_refused_by_their_faults(rt: HostRuntime) -> Result<(), Fail> {
    let alloc = rt.alloc();
    let net = one_capacitor(alloc)?;
    sees_twice(&rt, alloc, &net)?;
    let wrong = only(
        alloc,
        b"wdfcert 1\nk 14\nmultipliers 2 5461 8192\nrows 1 0\ninverse\n1153027054501986303\nend\n",
    )?;
    let fault = CertFault::WrongProduct {
        row: 0,
        col: 0,
        got: 1_537_275_585_305_247_745,
    };
    assert_eq!(rt; check(alloc, &net, &wrong), Err(fault));
    let narrow = Net::new(
        13,
        5461,
        leaf(0, Kind::Src),
        parallel(alloc, 8191, leaf(1, Kind::Cap), leaf(2, Kind::Res))?,
        Outlet::Load(2),
    )?;
    let fault = CertFault::OtherNet {
        at: 0,
        ours: 13,
        theirs: 14,
    };
    assert_eq!(rt;
        check(alloc, &narrow, &only(alloc, ONE_CAPACITOR)?),
        Err(fault)
    );

    // The rows may stand in any order, the columns of the inverse with them.
    let turned = b"wdfcert 1\nk 14\nmultipliers 3 8166 102 16383\nrows 2 2 0\ninverse\n\
        362768185431149665 1848553179668701657\n362768185431149665 268246541317307036\nend\n";
    assert_eq!(rt;
        check(alloc, &hum_notch(alloc)?, &only(alloc, turned)?),
        Ok(())
    );
    Ok(())
}

// `count` equal capacitors in parallel, from element 1 on.
fn capacitors(alloc: Global, count: u32) -> Result<Tree, AllocError>
    requires { count ≤ 64 }
{
    let mut tree = leaf(1, Kind::Cap);
    for n in 1..count {
        tree = parallel(alloc, nearest_share(n), tree, leaf(n + 1, Kind::Cap))?;
    }
    Ok(tree)
}

// n of n + 1 equal conductances, in units of 2^-14.
fn nearest_share(n: u32) -> u32
    requires { n ≤ 64 }
{
    (32_768 * n + n + 1) / (2 * n + 2)
}

// Equal capacitors across a load: the second capacitor's state is not seen.
fn second_is_unseen(rt: &impl Abort, alloc: Global, root: u32, count: u32) -> Result<(), Fail>
    requires some { 1 ≤ count }
    requires few { count ≤ 64 }
{
    let right = parallel(
        alloc,
        nearest_share(count),
        capacitors(alloc, count)?,
        leaf(count + 1, Kind::Res),
    )?;
    let net = Net::new(14, root, leaf(0, Kind::Src), right, Outlet::Load(count + 1))?;
    match make(alloc, &net) {
        Err(MakeFault::Unobservable { state, kernel }) => {
            assert_eq!(rt; state, 1);
            assert_eq!(rt; kernel.list().len(), count as usize);
            for (i, entry) in kernel.list().iter().enumerate() {
                let want = match i {
                    0 => 2_305_843_009_213_693_950,
                    1 => 1,
                    _ => 0,
                };
                assert_eq!(rt; *entry, want);
            }
        }
        _ => panic!(rt; "a certificate"),
    }
    Ok(())
}

#[test]
fn a_state_that_nothing_sees_is_told(rt: HostRuntime) -> Result<(), Fail> {
    second_is_unseen(&rt, rt.alloc(), 4096, 2)?;
    second_is_unseen(&rt, rt.alloc(), 248, 64)?;
    Ok(())
}

// The certificates made for the branches of a lattice have this text together.
fn branches_certify(rt: &impl Abort, alloc: Global) -> Result<(), Fail> {
    let Ok(first) = make(alloc, &lattice_a(alloc)?) else {
        panic!(rt; "no certificate of branch A");
    };
    let Ok(second) = make(alloc, &lattice_b()?) else {
        panic!(rt; "no certificate of branch B");
    };
    let mut text = write(alloc, &first)?;
    text.extend_from_slice(&write(alloc, &second)?)?;
    assert_eq!(rt; text.as_slice(), BUTTERWORTH_LATTICE);
    Ok(())
}

#[test]
fn texts_are_read_or_refused(rt: HostRuntime) -> Result<(), Fail> {
    let alloc = rt.alloc();
    branches_certify(&rt, alloc)?;
    let both = read(alloc, BUTTERWORTH_LATTICE)?;
    let mut text = write(alloc, &both.first)?;
    if let Some(second) = &both.second {
        text.extend_from_slice(&write(alloc, second)?)?;
    }
    assert_eq!(rt; text.as_slice(), BUTTERWORTH_LATTICE);
    for (text, want) in FAULTS {
        match read(alloc, text) {
            Ok(_) => panic!(rt; "{text:?}"),
            Err(fault) => assert_eq!(rt; fault, *want, "{text:?}"),
        }
    }
    Ok(())
}

// A ladder of 32 inductors in its line and 32 capacitors across it: 64 states.
fn long_ladder(alloc: Global) -> Result<Net, Fail> {
    let mut right = leaf(65, Kind::Res);
    for i in 0..32u32 {
        right = series(alloc, 3000 + 97 * i, leaf(2 * i + 1, Kind::Ind), right)?;
        right = parallel(alloc, 2000 + 101 * i, leaf(2 * i + 2, Kind::Cap), right)?;
    }
    Ok(Net::new(14, 4422, leaf(0, Kind::Src), right, Outlet::Source)?)
}

// Its certificate has the first 64 rows; another program gave two entries of their inverse.
#[test]
fn sixty_four_states_are_certified(rt: HostRuntime) -> Result<(), Fail> {
    let alloc = rt.alloc();
    let net = long_ladder(alloc)?;
    let Ok(cert) = make(alloc, &net) else {
        panic!(&rt; "no certificate");
    };
    assert_eq!(&rt; check(alloc, &net, &cert), Ok(()));
    assert_eq!(&rt; cert.rows().len(), 64);
    for (i, row) in cert.rows().iter().enumerate() {
        assert_eq!(&rt; *row as usize, i);
    }
    assert_eq!(&rt; cert.inverse().first(), Some(&1_369_059_393_773_079_489));
    assert_eq!(&rt; cert.inverse().last(), Some(&226_543_752_869_511_817));
    Ok(())
}
