//! What `report` tells of a network's states.

use super::calls::{Case, SOUND, call};
use super::circuits::TWIN;
use std::test::Fail;

#[test]
fn a_network_with_an_obstruction_is_not_certified(rt: HostRuntime) -> Result<(), Fail> {
    let case = Case {
        words: "report|net=N",
        netlist: TWIN,
        certificate: b"",
        input: b"",
        code: 0,
        out: b"",
        line: "",
    };
    let outcome = call(&rt, rt.alloc(), &case, SOUND)?;
    assert_eq!(rt; outcome.code, 0);
    assert!(rt; outcome.out.ends_with(b"\nstates 2 certified no\n"));
    Ok(())
}
