ghost use Rattle.std.specs.Prelude.{◌≡◌, ℕ, ◌+◌, ◌≤◌, ◌<◌, List, length, max};
ghost use Rattle.wdf_law.specs.Outline.{outline, outline_depth, outline_elements, times};
ghost use Rattle.wdf_law.specs.Spans.{Branch};
ghost use Rattle.wdf_sp.specs.Edges.{halves};
ghost use Rattle.wdf_netlist.specs.Circuits.{first_source};
ghost use Rattle.wdf_sp.specs.Rerooting.{outside_depth, parted, rerooted, root_of, rooted_depth, shallowest};
ghost use Rattle.wdf_sp.specs.Structure.{HasElements, IsShapeOf, IsUnflipped, Meets};

use crate::Rooted;
use std::mem;
use wdf_law::{Kind, Shape};
use wdf_netlist::{Circuit, RootChoice};

// The leaf with this number, and what is outside it. What is outside a part takes the part's box,
// so that no box is made.
fn parted(shape: Shape, outside: Shape, at: u32) -> Rooted
    ensures { halves result ≡ parted at (outline shape) (outline outside) }
{
    match shape {
        Shape::Leaf { elem, kind, flip } => Rooted {
            left: Shape::Leaf { elem, kind, flip },
            right: outside,
        },
        Shape::Ser { mut l, mut r } => {
            if l.has_leaf(at) {
                r.reverse();
                let inner = mem::replace(&mut *l, outside);
                parted(inner, Shape::Ser { l, r }, at)
            } else {
                l.reverse();
                let inner = mem::replace(&mut *r, outside);
                parted(inner, Shape::Ser { l, r }, at)
            }
        }
        Shape::Par { mut l, mut r } => {
            if l.has_leaf(at) {
                let inner = mem::replace(&mut *l, outside);
                parted(inner, Shape::Par { l, r }, at)
            } else {
                let inner = mem::replace(&mut *r, outside);
                parted(inner, Shape::Par { l, r }, at)
            }
        }
    }
}

// The two trees, before it is told what they are of a circuit.
fn rooted(shape: Shape, source: u32, at: u32) -> Rooted
    ensures { halves result ≡ rerooted (outline shape) source at }
{
    let leaf = Shape::Leaf {
        elem: source,
        kind: Kind::Src,
        flip: false,
    };
    if at == source {
        return Rooted {
            left: leaf,
            right: shape,
        };
    }
    parted(shape, leaf, at)
}

/// The two trees of a shape that is rooted at the element `at`, a leaf of the shape or the source.
///
/// Rooted at the source, the left tree is the source's leaf and the right tree the shape. Rooted at
/// another element, the left tree is that element's leaf and the right tree what is outside it in
/// the shape and the source's leaf together. No box is made.
pub fn reroot(shape: Shape, source: u32, at: u32) -> Rooted
    ensures trees { halves result ≡ rerooted (outline shape) source at }

    // Of every circuit that the shape spans without its source the two trees span the same two nodes
    // over all elements, each once.
    ensures meet { (bs : List Branch) (p q : ℕ) → IsShapeOf bs source (outline shape) p q → Meets bs (halves result) }
    ensures elements { (bs : List Branch) (p q : ℕ) → IsShapeOf bs source (outline shape) p q → HasElements bs (halves result) }
    ensures source { times (outline shape) source ≡ 0 → IsUnflipped source (outline result.left) × IsUnflipped source (outline result.right) }
    ensures leaves { length (outline_elements (outline result.left)) + length (outline_elements (outline result.right)) ≡ length (outline_elements (outline shape)) + 1 }
    ensures depth { (outline_depth (outline result.left) ≡ 0) × (outline_depth (outline result.right) ≤ length (outline_elements (outline shape))) }
{
    rooted(shape, source, at)
}

// The depth of what is outside a leaf, where `outside` is the depth of what is outside the shape.
fn outside_depth(shape: &Shape, at: u32, outside: usize) -> usize
    requires { outline_depth (outline shape.now) + max outside (outline_depth (outline shape.now)) ≤ 256 }
    ensures { result ≡ outside_depth at (outline shape.now) outside }
{
    match shape {
        Shape::Leaf { .. } => outside,
        Shape::Ser { l, r } | Shape::Par { l, r } => {
            if l.has_leaf(at) {
                outside_depth(l, at, 1 + outside.max(r.depth()))
            } else {
                outside_depth(r, at, 1 + l.depth().max(outside))
            }
        }
    }
}

// The greater depth of the two trees at a root.
#[tactic(auto, using(crate::proofs::RootLemmas::depth_rooted))]
fn rooted_depth(shape: &Shape, source: u32, at: u32) -> usize
    requires { outline_depth (outline shape.now) ≤ 128 }
    ensures { result ≡ rooted_depth (outline shape.now) source at }
{
    if at == source {
        shape.depth()
    } else {
        outside_depth(shape, at, 0)
    }
}

// The root whose trees are least deep: the source where it is among them, else the first.
pub(crate) fn shallowest(shape: &Shape, source: u32, count: u32) -> u32
    requires { outline_depth (outline shape.now) ≤ 128 }
    ensures value { result ≡ shallowest (outline shape.now) source count }
    ensures within { source < count → result < count }
{
    let mut best = source;
    let mut least = rooted_depth(shape, source, source);
    for i in 0..count {
        let depth = rooted_depth(shape, source, i);
        if depth < least {
            best = i;
            least = depth;
        }
    }
    best
}

/// The element at the root of a circuit of this shape, by the circuit's choice: the first source,
/// the element that is named, or the one whose two trees are least deep; of several the first
/// source where it is among them, else the first in netlist order.
pub fn choose(circuit: &Circuit, shape: &Shape) -> u32
    requires { outline_depth (outline shape.now) ≤ 128 }
    ensures root { result ≡ root_of circuit.now.root (first_source circuit.now.elements) (length circuit.now.elements) (outline shape.now) }
    ensures within { result < length circuit.now.elements }
{
    circuit.rules();
    match circuit.root() {
        RootChoice::Source => circuit.source(),
        RootChoice::Element(number) => number,
        RootChoice::Shallow => {
            shallowest(shape, circuit.source(), circuit.elements().len() as u32)
        }
    }
}
