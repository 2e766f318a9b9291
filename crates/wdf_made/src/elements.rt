//! The elements of a ladder.

ghost use Rattle.std.specs.Prelude.{◌≡◌, ◌≤◌, ◌<◌, IfOk};
ghost use Rattle.wdf_made.specs.Ladder.{elements_with, ladder_nodes, made_value, node_number, rung, termination, the_load, the_source, value_from};

use crate::generator::{generator_of, next_word};
use crate::names::{element_name, node_name, plain};
use crate::values::{is_capacitor, value_from};
use std::alloc::{AllocError, Global};
use wdf_law::Kind;
use wdf_netlist::Element;
use wdf_text::{Name, Quantity};

// The number of the ground.
const GROUND: u32 = 1;

// The number of the node nJ.
fn node_number(j: u8) -> u32
    requires { j ≤ 17 }
    ensures { result ≡ node_number j }
{
    if j == 0 { 0 } else { u32::from(j) + 1 }
}

// 600 ohms.
fn termination() -> Quantity
    ensures { result ≡ termination }
{
    Quantity { digits: 6, exp: 2 }
}

fn source() -> Element
    ensures { result ≡ the_source }
{
    Element {
        name: plain(b"S"),
        kind: Kind::Src,
        from: 0,
        to: GROUND,
        value: termination(),
    }
}

fn load(order: u8) -> Element
    requires { order ≤ 32 }
    ensures { result ≡ the_load order }
{
    Element {
        name: plain(b"L"),
        kind: Kind::Res,
        from: node_number(order / 2),
        to: GROUND,
        value: termination(),
    }
}

// The element at this place, counted from 0, by its word.
fn rung(place: u8, word: u32) -> Element
    requires { place < 32 }
    ensures { result ≡ rung place (value_from place word) }
{
    let capacitor = is_capacitor(place);
    Element {
        name: element_name(place + 1),
        kind: if capacitor { Kind::Cap } else { Kind::Ind },
        from: node_number(place / 2),
        to: if capacitor {
            GROUND
        } else {
            node_number(place / 2 + 1)
        },
        value: value_from(place, word),
    }
}

// The elements of the ladder of a seed and an order.
#[tactic(auto, using(crate::proofs::WordLemmas::behind_more, crate::proofs::WordLemmas::rungs_more))]
pub(crate) fn made_elements(alloc: Global, seed: u64, order: u8) -> Result<Vec<Element>, AllocError>
    requires { order ≤ 32 }
    ensures { IfOk result (λ v. v.items ≡ elements_with (made_value seed) order) }
{
    let mut generator = generator_of(seed);
    let mut elements = Vec::new(alloc);
    elements.push(source())?;
    for place in 0..order {
        elements.push(rung(place, next_word(&mut generator)))?;
    }
    elements.push(load(order))?;
    Ok(elements)
}

// The names of its nodes.
#[tactic(auto, using(crate::proofs::WordLemmas::nodes_more))]
pub(crate) fn ladder_nodes(alloc: Global, order: u8) -> Result<Vec<Name>, AllocError>
    requires { order ≤ 32 }
    ensures { IfOk result (λ v. v.items ≡ ladder_nodes order) }
{
    let mut nodes = Vec::new(alloc);
    nodes.push(plain(b"n0"))?;
    nodes.push(plain(b"0"))?;
    for j in 0..order / 2 {
        nodes.push(node_name(j + 1))?;
    }
    Ok(nodes)
}
