//! What `soak` writes, against another program.

use super::calls::{Case, Objects, SOUND, is_answered};
use std::test::Fail;

static SOAKS: [Case<'static>; 3] = [
    Case {
        words: "soak|seed=1|order=5|frames=1000",
        netlist: b"",
        certificate: b"",
        input: b"",
        code: 0,
        out: b"soak seed 1 order 5\nstates 5 certified yes\nframes 1000\nclipped 0\nsum 167686 least -9374 greatest 8966\nchannel 0 incident 94372366036224 absorbed 94068966610156 stored 297759148163\n",
        line: "",
    },
    Case {
        words: "soak|seed=3|order=8|frames=1000",
        netlist: b"",
        certificate: b"",
        input: b"",
        code: 0,
        out: b"soak seed 3 order 8\nstates 8 certified yes\nframes 1000\nclipped 0\nsum 279896 least -11354 greatest 9194\nchannel 0 incident 92592977325312 absorbed 92319974040969 stored 261408982727\n",
        line: "",
    },
    Case {
        words: "soak|seed=18446744073709551615|order=32|frames=64",
        netlist: b"",
        certificate: b"",
        input: b"",
        code: 0,
        out: b"soak seed 18446744073709551615 order 32\nstates 32 certified yes\nframes 64\nclipped 0\nsum 0 least 0 greatest 0\nchannel 0 incident 6512443622656 absorbed 6223324346391 stored 288301841108\n",
        line: "",
    },
];

// A soak loads no file and reads no input.
const CLOSED: Objects = Objects {
    shelf: Some(0),
    input: Some(0),
    ..SOUND
};

#[test]
fn the_summary_of_a_seed_is_written(rt: HostRuntime) -> Result<(), Fail> {
    let alloc = rt.alloc();
    for case in &SOAKS {
        is_answered(&rt, alloc, case, CLOSED)?;
    }
    Ok(())
}

#[test]
fn a_summary_stops_where_its_write_fails(rt: HostRuntime) -> Result<(), Fail> {
    let case = Case {
        words: "soak|seed=1|order=5|frames=1000",
        netlist: b"",
        certificate: b"",
        input: b"",
        code: 15,
        out: b"soak seed 1 order 5\nstates 5 certified yes\nframes 1000\nclipped 0",
        line: "wdf: 15 write fault\n",
    };
    let second = Objects {
        out: Some(1),
        piece: 64,
        ..CLOSED
    };
    is_answered(&rt, rt.alloc(), &case, second)?;
    Ok(())
}
