ghost use Rattle.std.specs.Prelude.{◌≡◌, nat_le};
ghost use Rattle.wdf_law.specs.Outline.{outline, outline_depth};

use super::*;
use crate::reduction::decompose_elements;
use crate::rerooting::shallowest;
use std::alloc::{AllocError, Global};
use std::test::Fail;
use wdf_law::{Kind, Shape};
use wdf_netlist::{Element, Form, read};
use wdf_text::{Name, Quantity};

fn element(kind: Kind, from: u32, to: u32) -> Element {
    Element {
        name: Name::at_sign(),
        kind,
        from,
        to,
        value: Quantity { digits: 1, exp: 0 },
    }
}

// A source from node 0 to node 1, and resistors between these nodes.
fn circuit(alloc: Global, resistors: &[(u32, u32)]) -> Result<Vec<Element>, Fail> {
    let mut elements = Vec::new(alloc);
    elements.push(element(Kind::Src, 0, 1))?;
    for (from, to) in resistors {
        elements.push(element(Kind::Res, *from, *to))?;
    }
    Ok(elements)
}

// A shape in words: `s(l,r)`, `p(l,r)`, or an element's number, with `-` before it where it is flipped.
fn push_shape(alloc: Global, text: &mut String, shape: &Shape) -> Result<(), AllocError> {
    match shape {
        Shape::Leaf { elem, flip, .. } => {
            if *flip {
                text.push('-')?;
            }
            text.push_str(format!(in alloc; "{elem}")?.as_str())?;
        }
        Shape::Ser { l, r } => {
            text.push_str("s(")?;
            push_shape(alloc, text, l)?;
            text.push(',')?;
            push_shape(alloc, text, r)?;
            text.push(')')?;
        }
        Shape::Par { l, r } => {
            text.push_str("p(")?;
            push_shape(alloc, text, l)?;
            text.push(',')?;
            push_shape(alloc, text, r)?;
            text.push(')')?;
        }
    }
    Ok(())
}

fn in_words(alloc: Global, shape: &Shape) -> Result<String, AllocError> {
    let mut text = String::new(alloc);
    push_shape(alloc, &mut text, shape)?;
    Ok(text)
}

// The shape in words, or the core's name and its edges.
fn decomposed(alloc: Global, elements: &[Element]) -> Result<String, Fail> {
    if elements.is_empty() || elements.len() > 128 {
        return Ok(String::from_str(alloc, "no circuit")?);
    }
    match decompose_elements(alloc, elements, 0) {
        Ok(shape) => Ok(in_words(alloc, &shape)?),
        Err(SpFault::NoMemory) => Ok(String::from_str(alloc, "no memory")?),
        Err(SpFault::Core { element, core }) => {
            let mut text = format!(in alloc; "core {element}:")?;
            for Edge { shape, from, to } in core.list() {
                text.push(' ')?;
                push_shape(alloc, &mut text, shape)?;
                text.push_str(format!(in alloc; " {from}-{to}")?.as_str())?;
            }
            Ok(text)
        }
    }
}

// Circuits of resistors between the ends 0 and 1 of a source, and their decomposition by hand.
#[test]
fn decompositions(rt: HostRuntime) -> Result<(), Fail> {
    let alloc = rt.alloc();
    let rows: [(&[(u32, u32)], &str); 7] = [
        (&[(1, 0)], "-1"),
        (&[(0, 1), (1, 0)], "p(1,-2)"),
        (&[(0, 2), (2, 1), (2, 3), (3, 1)], "s(1,p(2,s(3,4)))"),
        (
            &[(0, 2), (0, 3), (2, 3), (2, 1), (3, 1)],
            "core 1: 1 0-2 2 0-3 3 2-3 4 2-1 5 3-1",
        ),
        (&[(0, 1), (0, 2)], "core 2: 1 0-1 2 0-2"),
        // a loop that hangs on one node
        (&[(0, 1), (1, 2), (1, 2)], "core 2: 1 0-1 p(2,3) 1-2"),
        // two parts that touch only at node 1
        (
            &[(0, 1), (1, 2), (2, 3), (3, 1)],
            "core 2: 1 0-1 p(s(2,3),-4) 1-3",
        ),
    ];
    for (resistors, words) in rows {
        let elements = circuit(alloc, resistors)?;
        let text = decomposed(alloc, &elements)?;
        assert_eq!(rt; text.as_str(), words);
    }
    Ok(())
}

// No leaf stands below more junctions than the limit.
fn is_within(shape: &Shape, limit: usize) -> bool
    ensures { result ≡ nat_le (outline_depth (outline shape.now)) limit }
{
    match shape {
        Shape::Leaf { .. } => true,
        Shape::Ser { l, r } | Shape::Par { l, r } => {
            limit > 0 && is_within(l, limit - 1) && is_within(r, limit - 1)
        }
    }
}

// 127 resistors, from one node to the next one from the source's first end to its second, or in a
// ladder, where every second one goes to that end.
fn long_circuit(alloc: Global, ladder: bool) -> Result<Vec<Element>, Fail> {
    let mut elements = Vec::new(alloc);
    elements.push(element(Kind::Src, 0, 1))?;
    let mut node = 0;
    for i in 1..128u32 {
        if ladder && (i % 2 == 0 || i == 127) || !ladder && i == 127 {
            elements.push(element(Kind::Res, node, 1))?;
        } else {
            elements.push(element(Kind::Res, node, i + 1))?;
            node = i + 1;
        }
    }
    Ok(elements)
}

// The longest chain and the longest ladder are as deep as they are long; the chain's shallowest
// root is in its middle: rooted at the element k it has the depth 1 + max(k - 2, 127 - k).
#[test]
fn longest_circuits(rt: HostRuntime) -> Result<(), Fail> {
    let alloc = rt.alloc();
    for ladder in [false, true] {
        let elements = long_circuit(alloc, ladder)?;
        assert_eq!(rt; elements.len(), 128);
        let Ok(shape) = decompose_elements(alloc, &elements, 0) else {
            assert!(rt; false);
            return Ok(());
        };
        assert!(rt; is_within(&shape, 126));
        assert!(rt; !is_within(&shape, 125));
        if !ladder {
            assert_eq!(rt; shallowest(&shape, 0, 128), 64);
            let Rooted { left, right } = reroot(shape, 0, 64);
            assert!(rt; is_within(&left, 0));
            assert!(rt; is_within(&right, 64) && !is_within(&right, 63));
        }
    }
    Ok(())
}

// Four resistors in a chain: the copy, and the trees at the shallowest root.
#[test]
fn chain_rerooted(rt: HostRuntime) -> Result<(), Fail> {
    let alloc = rt.alloc();
    let elements = circuit(alloc, &[(0, 2), (2, 3), (3, 4), (4, 1)])?;
    assert_eq!(rt; elements.len(), 5);
    let Ok(shape) = decompose_elements(alloc, &elements, 0) else {
        assert!(rt; false);
        return Ok(());
    };
    let copy = shape.copy(alloc)?;
    assert_eq!(rt; in_words(alloc, &copy)?.as_str(), "s(s(s(1,2),3),4)");
    assert_eq!(rt;
        in_words(alloc, &copy.reversed())?.as_str(),
        "s(-4,s(-3,s(-2,-1)))"
    );
    assert!(rt; is_within(&shape, 3));
    let root = shallowest(&shape, 0, 5);
    assert_eq!(rt; root, 3);
    let Rooted { left, right } = reroot(shape, 0, root);
    assert_eq!(rt; in_words(alloc, &left)?.as_str(), "3");
    assert_eq!(rt; in_words(alloc, &right)?.as_str(), "s(s(-2,-1),s(0,-4))");
    Ok(())
}

// A capacitor and a load between the ends of a source, with the root at the capacitor.
const ROOTED: &[u8] = b"rate 50000\nsource S a 0 1\nc C a 0 10u\nr L a 0 1\nload L\nroot C\n";

#[test]
fn a_circuit_of_a_text_is_rooted(rt: HostRuntime) -> Result<(), Fail> {
    let alloc = rt.alloc();
    let Ok(netlist) = read(alloc, ROOTED) else {
        assert!(rt; false);
        return Ok(());
    };
    let Form::Ladder(circuit) = netlist.form() else {
        assert!(rt; false);
        return Ok(());
    };
    let Ok(shape) = decompose(alloc, circuit) else {
        assert!(rt; false);
        return Ok(());
    };
    assert_eq!(rt; in_words(alloc, &shape)?.as_str(), "p(1,2)");
    let root = choose(circuit, &shape);
    assert_eq!(rt; root, 1);
    let Rooted { left, right } = reroot(shape, circuit.source(), root);
    assert_eq!(rt; in_words(alloc, &left)?.as_str(), "1");
    assert_eq!(rt; in_words(alloc, &right)?.as_str(), "p(0,2)");
    Ok(())
}
