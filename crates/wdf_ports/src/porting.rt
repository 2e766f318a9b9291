// The tree of ports of a shape.
ghost use Rattle.std.specs.Prelude.{◌≡◌, ◌≤◌, ◌<◌, ◌+◌, ◌*◌, ◌/◌, ◌^◌, length, All};
ghost use Rattle.wdf_law.specs.Outline.{outline, outline_elements};
ghost use Rattle.wdf_law.specs.PortOutline.{IsRatio};
ghost use Rattle.wdf_law.specs.Trees.{LeafElement};
ghost use Rattle.wdf_netlist.specs.declared.TheConstants.{MAX_RATE};
ghost use Rattle.wdf_ports.specs.PortRatio.{GivesRatio, element_ratio};
ghost use Rattle.wdf_ports.specs.PortRatios.{AreBelow, GivesPorts, NamesBelow, ports_with};

use crate::{PortFault, leaf_ratio};
use std::alloc::Global;
use wdf_law::{PortTree, Shape};
use wdf_netlist::Circuit;

// A ratio of the port of a junction, which is named by its first leaf.
fn in_range(elem: u32, ratio: u64) -> Result<u64, PortFault>
    ensures { GivesRatio elem ratio result }
{
    if ratio == 0 {
        return Err(PortFault::Range {
            element: elem,
            low: true,
        });
    }
    if ratio > 1 << 62 {
        return Err(PortFault::Range {
            element: elem,
            low: false,
        });
    }
    Ok(ratio)
}

// r1·r2/(r1 + r2), rounded down.
fn in_parallel(r1: u64, r2: u64) -> u64
    requires first { IsRatio r1 }
    requires second { IsRatio r2 }
    ensures { result ≡ r1 * r2 / (r1 + r2) }
{
    (u128::from(r1) * u128::from(r2) / (u128::from(r1) + u128::from(r2))) as u64
}

// The ports of a shape of elements that are there.
fn ports(alloc: Global, rate: u32, circuit: &Circuit, shape: &Shape) -> Result<PortTree, PortFault>
    requires slowest { 1 ≤ rate }
    requires fastest { rate ≤ MAX_RATE }
    requires elements { AreBelow (length circuit.now.elements) (outline shape.now) }
    ensures { GivesPorts (ports_with (element_ratio rate circuit.now.elements) (outline shape.now)) result }
{
    match shape {
        Shape::Leaf { elem, kind, flip } => {
            let ratio = leaf_ratio(rate, circuit, *elem)?;
            Ok(PortTree::Leaf {
                elem: *elem,
                kind: *kind,
                flip: *flip,
                ratio,
            })
        }
        Shape::Ser { l, r } => {
            let l = Box::new(alloc, ports(alloc, rate, circuit, l)?)?;
            let r = Box::new(alloc, ports(alloc, rate, circuit, r)?)?;
            let ratio = in_range(l.first_leaf(), l.ratio() + r.ratio())?;
            Ok(PortTree::Series { ratio, l, r })
        }
        Shape::Par { l, r } => {
            let l = Box::new(alloc, ports(alloc, rate, circuit, l)?)?;
            let r = Box::new(alloc, ports(alloc, rate, circuit, r)?)?;
            let ratio = in_range(l.first_leaf(), in_parallel(l.ratio(), r.ratio()))?;
            Ok(PortTree::Parallel { ratio, l, r })
        }
    }
}

/// The ports of a shape of a circuit's elements, each with its resistance over that of source 0, in
/// units of 2^-40: of an element by [`leaf_ratio`], of a series junction r1 + r2, of a parallel
/// junction r1·r2/(r1 + r2) rounded down. The rate is in frames per second.
///
/// # Errors
///
/// `Range` exactly where a ratio is not in `1..=2^62`; of several the first, parts before their
/// junction and the first part first, by its element or its junction's first leaf. `NoMemory` where
/// no memory is left.
#[tactic(auto, using(crate::proofs::LeafLemmas::are_below, crate::proofs::LeafLemmas::answer_below))]
pub fn port_tree(
    alloc: Global,
    rate: u32,
    circuit: &Circuit,
    shape: &Shape,
) -> Result<PortTree, PortFault>
    requires slowest { 1 ≤ rate }
    requires fastest { rate ≤ MAX_RATE }
    requires elements { All (λ (x : LeafElement). x.number < length circuit.now.elements) (outline_elements (outline shape.now)) }
    ensures ports { GivesPorts (ports_with (element_ratio rate circuit.now.elements) (outline shape.now)) result }
    ensures element { NamesBelow (length circuit.now.elements) result }
{
    ports(alloc, rate, circuit, shape)
}
