//! Nodes and elements by their numbers.

ghost use Rattle.std.specs.Prelude.{◌≡◌, ◌+◌, ◌*◌, ◌<◌, ◌≤◌, ◌^◌, IfOk, OnOk, length, map};
ghost use Rattle.wdf_netlist.specs.Circuits.{IsCircuit};
ghost use Rattle.wdf_netlist.specs.TextRules.{circuit_of, nodes_of, numbered, with_part};

use crate::circuit_draft::CircuitDraft;
use crate::names::Names;
use crate::part::Part;
use crate::{Circuit, Element, RootChoice};
use std::alloc::{AllocError, Global};
use wdf_law::Outlet;

// Adds the nodes of an element.
#[tactic(auto, using(crate::proofs::NodeLemmas::two_longer))]
fn add_nodes(nodes: &mut Names, part: &Part) -> Result<(), AllocError>
    ensures nodes { OnOk result (nodes.new ≡ with_part nodes.old part.now) }
    ensures few { OnOk result (length nodes.new ≤ length nodes.old + 2) }
{
    nodes.insert(part.from)?;
    nodes.insert(part.to)
}

// The nodes of these elements, in the order in which they are first mentioned.
fn nodes_of(alloc: Global, parts: &[Part]) -> Result<Names, AllocError>
    ensures nodes { IfOk result (λ n. n ≡ nodes_of parts.now) }
    ensures few { IfOk result (λ n. length n ≤ 2 * length parts.now) }
{
    let mut nodes = Names::new(alloc);
    for part in parts {
        add_nodes(&mut nodes, part)?;
    }
    Ok(nodes)
}

// An element with its nodes by their numbers.
fn numbered(part: &Part, nodes: &Names) -> Element
    requires { length nodes.now < 2 ^ 32 }
    ensures { result ≡ numbered nodes.now part.now }
{
    Element {
        name: part.name,
        kind: part.kind,
        from: nodes.place(&part.from) as u32,
        to: nodes.place(&part.to) as u32,
        value: part.value,
    }
}

// The elements with their nodes by their numbers.
#[tactic(auto, using(std::proofs::lemmas::List::map_more))]
fn elements_of(alloc: Global, parts: &[Part], nodes: &Names) -> Result<Vec<Element>, AllocError>
    requires { length nodes.now < 2 ^ 32 }
    ensures { IfOk result (λ v. v.items ≡ map (numbered nodes.now) parts.now) }
{
    let mut elements = Vec::new(alloc);
    for part in parts {
        elements.push(numbered(part, nodes))?;
    }
    Ok(elements)
}

/// The circuit that a draft's lines give, with this outlet and this choice of root.
pub fn circuit_of(
    alloc: Global,
    draft: &CircuitDraft,
    outlet: Outlet,
    root: RootChoice,
) -> Result<Circuit, AllocError>
    requires circuit { IsCircuit (circuit_of draft.now.parts.items outlet root) }
    requires few { length draft.now.parts.items ≤ 128 }
    ensures { IfOk result (λ c. c ≡ circuit_of draft.now.parts.items outlet root) }
{
    let nodes = nodes_of(alloc, &draft.parts)?;
    let elements = elements_of(alloc, &draft.parts, &nodes)?;
    let mut names = Vec::new(alloc);
    names.extend_from_slice(nodes.as_slice())?;
    Ok(Circuit::new(elements, names, outlet, root))
}
