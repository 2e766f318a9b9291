ghost use Rattle.std.specs.Prelude.{◌≡◌, ◌+◌, ◌<◌, ◌≤◌, IfOk, OnOk, length, vec_len};
ghost use Rattle.wdf_law.specs.Outline.{outline, outline_depth, outline_elements};
ghost use Rattle.wdf_netlist.specs.declared.TheConstants.{MAX_ELEMENTS};
ghost use Rattle.wdf_sp.specs.Decomposition.{Accepts, Decomposes, NamesBelow};
ghost use Rattle.wdf_sp.specs.Edges.{arc, arcs, branch, branches};
ghost use Rattle.wdf_netlist.specs.Circuits.{first_source};
ghost use Rattle.wdf_sp.specs.Reduction.{after_merge, edges_from, fully_reduced, joined_at, leaf_arc, naming_element};
ghost use Rattle.wdf_sp.specs.Structure.{SpansCircuit};

use crate::merge::Merge;
use crate::pair::{hangs, inner_node, next_merge};
use crate::{Edge, Edges, SpFault};
use std::alloc::{AllocError, Global};
use std::mem;
use wdf_law::{Connection, Kind, Shape};
use wdf_netlist::{Circuit, Element};

// An element as an edge in its own direction.
fn leaf_edge(elem: u32, element: &Element) -> Edge
    ensures { arc result ≡ leaf_arc elem (branch element.now) }
{
    Edge {
        shape: Shape::Leaf {
            elem,
            kind: element.kind,
            flip: false,
        },
        from: element.from,
        to: element.to,
    }
}

// An edge for each element but the source, in netlist order.
fn edges_without(alloc: Global, elements: &[Element], source: u32) -> Result<Vec<Edge>, AllocError>
    requires { length elements.now ≤ MAX_ELEMENTS }
    ensures { IfOk result (λ v. arcs v.items ≡ edges_from source 0 (branches elements.now)) }
{
    let mut edges = Vec::new(alloc);
    for (i, element) in elements.iter().enumerate() {
        let elem = i as u32;
        if elem != source {
            edges.push(leaf_edge(elem, element))?;
        }
    }
    Ok(edges)
}

// The two edges as one, in series by the node where they meet.
fn joined(
    alloc: Global,
    connection: Connection,
    node: u32,
    first: Edge,
    second: Edge,
) -> Result<Edge, AllocError>
    ensures { IfOk result (λ edge. arc edge ≡ joined_at connection node (arc first) (arc second)) }
{
    match connection {
        Connection::Parallel => {
            let second = second.leaving(first.from);
            let l = Box::new(alloc, first.shape)?;
            let r = Box::new(alloc, second.shape)?;
            Ok(Edge {
                shape: Shape::Par { l, r },
                from: first.from,
                to: first.to,
            })
        }
        Connection::Series => {
            let first = first.arriving(node);
            let second = second.leaving(node);
            let l = Box::new(alloc, first.shape)?;
            let r = Box::new(alloc, second.shape)?;
            Ok(Edge {
                shape: Shape::Ser { l, r },
                from: first.from,
                to: second.to,
            })
        }
    }
}

// What stands at a place while its edge is merged.
fn vacant() -> Edge {
    Edge {
        shape: Shape::Leaf {
            elem: 0,
            kind: Kind::Res,
            flip: false,
        },
        from: 0,
        to: 0,
    }
}

// Puts the merged edge at the first place, and takes the second edge out.
fn merge_pair(
    alloc: Global,
    edges: &mut Vec<Edge>,
    p: u32,
    q: u32,
    merge: Merge,
) -> Result<(), AllocError>
    requires order { merge.first < merge.second }
    requires within { merge.second < vec_len edges.old }
    ensures list { OnOk result (arcs edges.new.items ≡ after_merge p q (arcs edges.old.items) merge) }
    ensures shorter { OnOk result (vec_len edges.new + 1 ≡ vec_len edges.old) }
{
    let node = inner_node(edges, p, q, &edges[merge.first], &edges[merge.second]);
    let second = edges.remove(merge.second);
    let first = mem::replace(&mut edges[merge.first], vacant());
    let whole = joined(alloc, merge.connection, node, first, second)?;
    edges[merge.first] = whole;
    Ok(())
}

// Merges as long as there is a pair.
fn reduce(alloc: Global, edges: &mut Vec<Edge>, p: u32, q: u32) -> Result<(), AllocError>
    ensures { OnOk result (arcs edges.new.items ≡ fully_reduced p q (arcs edges.old.items)) }
{
    while let Some(merge) = next_merge(edges, p, q) {
        merge_pair(alloc, edges, p, q, merge)?;
    }
    Ok(())
}

// The shape of one edge between p and q, directed from p to q, or else the edges.
fn accept(mut edges: Vec<Edge>, p: u32, q: u32) -> Result<Shape, Vec<Edge>>
    ensures { Accepts p q (arcs edges.items) result }
{
    if edges.len() != 1 || !edges[0].is_between(p, q) {
        return Err(edges);
    }
    let edge = edges.remove(0);
    if edge.from == p && edge.to == q {
        Ok(edge.shape)
    } else {
        Ok(edge.shape.reversed())
    }
}

// The element that a core is named by.
fn naming_element(edges: &[Edge], p: u32, q: u32) -> u32
    ensures { result ≡ naming_element p q (arcs edges.now) }
{
    for edge in edges {
        if hangs(edges, p, q, edge) {
            return edge.shape.first_leaf();
        }
    }
    match edges.first() {
        Some(edge) => edge.shape.first_leaf(),
        None => 0,
    }
}

// The shape of these elements between the ends of this source, or the core.
pub(crate) fn decompose_elements(
    alloc: Global,
    elements: &[Element],
    source: u32,
) -> Result<Shape, SpFault>
    requires few { length elements.now ≤ MAX_ELEMENTS }
    requires within { source < length elements.now }
    ensures { Decomposes (branches elements.now) source result }
{
    let Element { from, to, .. } = elements[source as usize];
    let mut edges = edges_without(alloc, elements, source)?;
    reduce(alloc, &mut edges, from, to)?;
    match accept(edges, from, to) {
        Ok(shape) => Ok(shape),
        Err(edges) => {
            let element = naming_element(&edges, from, to);
            Err(SpFault::Core {
                element,
                core: Edges::new(edges),
            })
        }
    }
}

/// The shape of a circuit between the ends of its first source, without that source.
///
/// Edges are merged two at a time until one is left or no rule applies: in parallel those between
/// the same two nodes, and only where there are none, in series those that meet at a node that is no
/// end of the source and that no other edge touches; of several pairs the first in the list.
///
/// # Errors
///
/// `Core` exactly where the edges that are left are not one edge between the source's ends, and
/// `NoMemory` where no memory is left.
pub fn decompose(alloc: Global, circuit: &Circuit) -> Result<Shape, SpFault>
    ensures answer { Decomposes (branches circuit.now.elements) (first_source circuit.now.elements) result }

    // The shape is a series-parallel network over every element but the source, between its ends.
    ensures spans { IfOk result (λ shape. SpansCircuit (branches circuit.now.elements) (first_source circuit.now.elements) (outline shape)) }
    ensures leaves { IfOk result (λ shape. length (outline_elements (outline shape)) + 1 ≡ length circuit.now.elements) }
    ensures depth { IfOk result (λ shape. outline_depth (outline shape) < length (outline_elements (outline shape))) }

    // The element that names a core is there.
    ensures named { NamesBelow (length circuit.now.elements) result }
{
    circuit.rules();
    decompose_elements(alloc, circuit.elements(), circuit.source())
}
