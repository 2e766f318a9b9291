//! No clause says when memory is wanting, so a program that always answers so would meet each of them.

use super::calls::{Case, SOUND, is_answered};
use super::circuits::{CERTIFICATE, DIVIDER, FOUR, LOW_PASS, REPORT};
use std::test::Fail;

// A call of each command on a netlist; `soaks` has those of `soak`.
static CALLS: [Case<'static>; 4] = [
    Case {
        words: "run|net=N",
        netlist: DIVIDER,
        certificate: b"",
        input: &FOUR,
        code: 0,
        out: &FOUR,
        line: "frames 4\nclipped 0\nchannel 0 incident 549739038208 absorbed 549739038208 stored 0\n",
    },
    Case {
        words: "report|net=N|guard=0",
        netlist: LOW_PASS,
        certificate: b"",
        input: b"",
        code: 0,
        out: REPORT,
        line: "",
    },
    Case {
        words: "certify|net=N",
        netlist: LOW_PASS,
        certificate: b"",
        input: b"",
        code: 0,
        out: CERTIFICATE,
        line: "",
    },
    Case {
        words: "check|net=N|cert=C",
        netlist: LOW_PASS,
        certificate: CERTIFICATE,
        input: b"",
        code: 0,
        out: b"accepted\n",
        line: "",
    },
];

#[test]
fn answers_with_ample_memory(rt: HostRuntime) -> Result<(), Fail> {
    let alloc = rt.alloc();
    for case in &CALLS {
        is_answered(&rt, alloc, case, SOUND)?;
    }
    Ok(())
}
