//! Certificates: what `certify` writes, and what `check` says of them.

use super::calls::{Case, SOUND, is_answered};
use super::circuits::{BRIDGE, CERTIFICATE, LATTICE, LOW_PASS};
use std::test::Fail;

// The certificates of the lattice's branches, which have no states.
const PAIR: &[u8] =
    b"wdfcert 1\nk 14\nmultipliers 1 1\nrows 0\ninverse\nend\nwdfcert 1\nk 14\nmultipliers 1 16383\nrows 0\ninverse\nend\n";

// Made, accepted and refused.
static CERTIFICATES: [Case<'static>; 17] = [
    Case {
        words: "certify|net=N",
        netlist: LATTICE,
        certificate: b"",
        input: b"",
        code: 0,
        out: PAIR,
        line: "",
    },
    Case {
        words: "certify|net=N",
        netlist: b"rate 50000\nsource S a 0 1\nc C1 a 0 10u\nc C2 a 0 10u\nr L a 0 1\nload L\n",
        certificate: b"",
        input: b"",
        code: 11,
        out: b"",
        line: "wdf: 11 unobservable state C2\n",
    },
    Case {
        words: "certify|net=N",
        netlist: b"rate 50000\nsource S a 0 1\nc C1 a 0 10u\nc C2 a 0 10u\nc C3 a 0 10u\nc C4 a 0 10u\nc C5 a 0 10u\nc C6 a 0 10u\nc C7 a 0 10u\nc C8 a 0 10u\nc C9 a 0 10u\nc C10 a 0 10u\nc C11 a 0 10u\nc C12 a 0 10u\nc C13 a 0 10u\nc C14 a 0 10u\nc C15 a 0 10u\nc C16 a 0 10u\nc C17 a 0 10u\nc C18 a 0 10u\nc C19 a 0 10u\nc C20 a 0 10u\nc C21 a 0 10u\nc C22 a 0 10u\nc C23 a 0 10u\nc C24 a 0 10u\nc C25 a 0 10u\nc C26 a 0 10u\nc C27 a 0 10u\nc C28 a 0 10u\nc C29 a 0 10u\nc C30 a 0 10u\nc C31 a 0 10u\nc C32 a 0 10u\nc C33 a 0 10u\nc C34 a 0 10u\nc C35 a 0 10u\nc C36 a 0 10u\nc C37 a 0 10u\nc C38 a 0 10u\nc C39 a 0 10u\nc C40 a 0 10u\nc C41 a 0 10u\nc C42 a 0 10u\nc C43 a 0 10u\nc C44 a 0 10u\nc C45 a 0 10u\nc C46 a 0 10u\nc C47 a 0 10u\nc C48 a 0 10u\nc C49 a 0 10u\nc C50 a 0 10u\nc C51 a 0 10u\nc C52 a 0 10u\nc C53 a 0 10u\nc C54 a 0 10u\nc C55 a 0 10u\nc C56 a 0 10u\nc C57 a 0 10u\nc C58 a 0 10u\nc C59 a 0 10u\nc C60 a 0 10u\nc C61 a 0 10u\nc C62 a 0 10u\nc C63 a 0 10u\nc C64 a 0 10u\nr L a 0 1\nload L\n",
        certificate: b"",
        input: b"",
        code: 11,
        out: b"",
        line: "wdf: 11 unobservable state C2\n",
    },
    Case {
        words: "certify|net=N",
        netlist: b"rate 50000\nsource S a 0 1\nc C1 a 0 10u\nc C2 a 0 10u\nc C3 a 0 10u\nc C4 a 0 10u\nc C5 a 0 10u\nc C6 a 0 10u\nc C7 a 0 10u\nc C8 a 0 10u\nc C9 a 0 10u\nc C10 a 0 10u\nc C11 a 0 10u\nc C12 a 0 10u\nc C13 a 0 10u\nc C14 a 0 10u\nc C15 a 0 10u\nc C16 a 0 10u\nc C17 a 0 10u\nc C18 a 0 10u\nc C19 a 0 10u\nc C20 a 0 10u\nc C21 a 0 10u\nc C22 a 0 10u\nc C23 a 0 10u\nc C24 a 0 10u\nc C25 a 0 10u\nc C26 a 0 10u\nc C27 a 0 10u\nc C28 a 0 10u\nc C29 a 0 10u\nc C30 a 0 10u\nc C31 a 0 10u\nc C32 a 0 10u\nc C33 a 0 10u\nc C34 a 0 10u\nc C35 a 0 10u\nc C36 a 0 10u\nc C37 a 0 10u\nc C38 a 0 10u\nc C39 a 0 10u\nc C40 a 0 10u\nc C41 a 0 10u\nc C42 a 0 10u\nc C43 a 0 10u\nc C44 a 0 10u\nc C45 a 0 10u\nc C46 a 0 10u\nc C47 a 0 10u\nc C48 a 0 10u\nc C49 a 0 10u\nc C50 a 0 10u\nc C51 a 0 10u\nc C52 a 0 10u\nc C53 a 0 10u\nc C54 a 0 10u\nc C55 a 0 10u\nc C56 a 0 10u\nc C57 a 0 10u\nc C58 a 0 10u\nc C59 a 0 10u\nc C60 a 0 10u\nc C61 a 0 10u\nc C62 a 0 10u\nc C63 a 0 10u\nc C64 a 0 10u\nc C65 a 0 10u\nr L a 0 1\nload L\n",
        certificate: b"",
        input: b"",
        code: 2,
        out: b"",
        line: "wdf: 2 netlist line 67 column 1 TooManyStates C65\n",
    },
    Case {
        words: "certify|net=N",
        netlist: BRIDGE,
        certificate: b"",
        input: b"",
        code: 3,
        out: b"",
        line: "wdf: 3 not series-parallel element R1 core 5\n",
    },
    Case {
        words: "check|net=N|cert=C",
        netlist: LATTICE,
        certificate: PAIR,
        input: b"",
        code: 0,
        out: b"accepted\n",
        line: "",
    },
    Case {
        words: "check|net=N|cert=C",
        netlist: LOW_PASS,
        certificate: b"wdfcert 1\nk 14\nmultipliers 2 5461 8192\nrows 1 0\ninverse\n1153027054501986303\nend\n",
        input: b"",
        code: 13,
        out: b"",
        line: "wdf: 13 certificate wrong product row 0 column 0 got 1537275585305247745\n",
    },
    Case {
        words: "check|net=N|cert=C",
        netlist: LOW_PASS,
        certificate: b"wdfcert 2\n",
        input: b"",
        code: 12,
        out: b"",
        line: "wdf: 12 certificate offset 8 syntax\n",
    },
    Case {
        words: "check|net=N|cert=C",
        netlist: LOW_PASS,
        certificate: b"wdfcert 1\nk 14\nmultipliers 2 5461 8192\nrows 1 0\ninverse\n99999999999999999999\nend\n",
        input: b"",
        code: 12,
        out: b"",
        line: "wdf: 12 certificate offset 56 range\n",
    },
    Case {
        words: "check|net=N|cert=C",
        netlist: LOW_PASS,
        certificate: b"wdfcert 1\nk 14\nmultipliers 2 5461 8192\nrows 1 0\ninverse\n111111111111111111111\nend\n",
        input: b"",
        code: 12,
        out: b"",
        line: "wdf: 12 certificate offset 56 syntax\n",
    },
    Case {
        words: "check|net=N|cert=C",
        netlist: LOW_PASS,
        certificate: b"wdfcert 1\nk 14\nmultipliers 2 5461 8192\nrows 1 0\n",
        input: b"",
        code: 12,
        out: b"",
        line: "wdf: 12 certificate offset 48 syntax\n",
    },
    Case {
        words: "check|net=N|cert=C|k=13",
        netlist: LOW_PASS,
        certificate: CERTIFICATE,
        input: b"",
        code: 13,
        out: b"",
        line: "wdf: 13 certificate wrong net at 0 ours 13 theirs 14\n",
    },
    Case {
        words: "check|net=N|cert=C",
        netlist: LOW_PASS,
        certificate: PAIR,
        input: b"",
        code: 13,
        out: b"",
        line: "wdf: 13 certificate wrong count have 2 want 1\n",
    },
    Case {
        words: "check|net=N|cert=C",
        netlist: LATTICE,
        certificate: b"wdfcert 1\nk 14\nmultipliers 1 1\nrows 0\ninverse\nend\n",
        input: b"",
        code: 13,
        out: b"",
        line: "wdf: 13 certificate wrong count have 1 want 2\n",
    },
    Case {
        words: "check|net=N|cert=C",
        netlist: LATTICE,
        certificate: b"wdfcert 1\nk 14\nmultipliers 1 1\nrows 0\ninverse\nend\nwdfcert 1\nk 14\nmultipliers 1 16382\nrows 0\ninverse\nend\n",
        input: b"",
        code: 13,
        out: b"",
        line: "wdf: 13 certificate wrong branch B net at 1 ours 16383 theirs 16382\n",
    },
    Case {
        words: "check|net=N|cert=x",
        netlist: LOW_PASS,
        certificate: CERTIFICATE,
        input: b"",
        code: 18,
        out: b"",
        line: "wdf: 18 missing word 2\n",
    },
    Case {
        words: "check|cert=x|net=N",
        netlist: BRIDGE,
        certificate: CERTIFICATE,
        input: b"",
        code: 3,
        out: b"",
        line: "wdf: 3 not series-parallel element R1 core 5\n",
    },
];

#[test]
fn certificates_are_written_and_checked(rt: HostRuntime) -> Result<(), Fail> {
    let alloc = rt.alloc();
    for case in &CERTIFICATES {
        is_answered(&rt, alloc, case, SOUND)?;
    }
    Ok(())
}
