ghost use Rattle.std.specs.Prelude.{◌≡◌, IfOk, false};
ghost use Rattle.wdf_law.specs.Outline.{outline, single, joined};
ghost use Rattle.wdf_law.specs.declared.connection.Connection.TheVariants.{Parallel};
ghost use Rattle.wdf_law.specs.declared.kind.Kind.TheVariants.{Cap, Res};

use super::*;
use std::alloc::{AllocError, Global};
use std::test::Fail;
use wdf_law::{Kind, PortTree, Shape};
use wdf_netlist::{Circuit, Form, read};

// A source of 1 ohm, a capacitor of 1 ohm's port at this rate, and a load.
const ONE_OHM: &[u8] = b"rate 50000\nsource S a 0 1\nc C a 0 10u\nr L a 0 1\nload L\n";

const TOO_LOW: &[u8] = b"rate 50000\nsource S a 0 1\nc C a 0 10u\nr L a 0 0.4p\nload L\n";

const TOO_HIGH: &[u8] = b"rate 50000\nsource S a 0 1\nc C a 0 10u\nr L a 0 5M\nload L\n";

// The capacitor and the load in parallel.
fn capacitor_and_load(alloc: Global) -> Result<Shape, AllocError>
    ensures { IfOk result (λ shape. outline shape ≡ joined Parallel (single 1 Cap false) (single 2 Res false)) }
{
    let flip = false;
    let capacitor = Shape::Leaf {
        elem: 1,
        kind: Kind::Cap,
        flip,
    };
    let load = Shape::Leaf {
        elem: 2,
        kind: Kind::Res,
        flip,
    };
    let l = Box::new(alloc, capacitor)?;
    let r = Box::new(alloc, load)?;
    Ok(Shape::Par { l, r })
}

// The ratio of their common port in a circuit of three elements.
#[tactic(auto, using(crate::proofs::LeafLemmas::two_below))]
fn common_ratio(alloc: Global, circuit: &Circuit) -> Result<u64, PortFault> {
    if circuit.elements().len() != 3 {
        return Err(PortFault::NoMemory);
    }
    let shape = capacitor_and_load(alloc)?;
    let tree = port_tree(alloc, 50000, circuit, &shape)?;
    let PortTree::Parallel { ratio, .. } = tree else {
        return Err(PortFault::NoMemory);
    };
    Ok(ratio)
}

#[test]
fn ports_of_circuits(rt: HostRuntime) -> Result<(), Fail> {
    let alloc = rt.alloc();
    let low = PortFault::Range {
        element: 2,
        low: true,
    };
    let high = PortFault::Range {
        element: 2,
        low: false,
    };
    for (text, ratio) in [
        (ONE_OHM, Ok(549755813888)),
        (TOO_LOW, Err(low)),
        (TOO_HIGH, Err(high)),
    ] {
        let Ok(netlist) = read(alloc, text) else {
            assert!(rt; false);
            return Ok(());
        };
        let Form::Ladder(circuit) = netlist.form() else {
            assert!(rt; false);
            return Ok(());
        };
        assert!(rt; common_ratio(alloc, circuit) == ratio);
    }
    Ok(())
}
