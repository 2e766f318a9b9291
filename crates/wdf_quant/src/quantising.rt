ghost use Rattle.std.specs.Prelude.{◌≡◌, ◌≤◌, ◌^◌, ◌++◌, IfOk};
ghost use Rattle.wdf_law.specs.Outline.{outline_depth, outline_elements};
ghost use Rattle.wdf_law.specs.PortOutline.{HaveRatios, port_outline, ratio_of, shape_outline};
ghost use Rattle.wdf_law.specs.Trees.{adaptor_tree};
ghost use Rattle.wdf_quant.specs.Multiplier.{multiplier};
ghost use Rattle.wdf_quant.specs.QuantisedNetwork.{AreNetworkElements, quantised, quantised_network};

use crate::multiplier;
use std::alloc::{AllocError, Global};
use wdf_law::{Net, Outlet, PortTree, Tree};

/// The quantised network of two trees of ports that the root joins: adaptors in their shape, each
/// with the [`multiplier`] of the ratios of its two parts, in units of `2^-k`.
///
/// `k` is in 1..=20, the ratios are in `1..=2^62`, no tree is deeper than 128, and the leaves of both
/// trees together are such as a network may have: 2 to 128 elements with the numbers below their
/// count, each once, 1 to 8 sources, and the resistor that the outlet names.
pub fn quantise(
    alloc: Global,
    left: &PortTree,
    right: &PortTree,
    k: u8,
    outlet: Outlet,
) -> Result<Net, AllocError>
    requires some { 1 ≤ k }
    requires few { k ≤ 20 }
    requires left { HaveRatios (port_outline left.now) }
    requires right { HaveRatios (port_outline right.now) }
    requires elements { AreNetworkElements (outline_elements (shape_outline (port_outline left.now)) ++ outline_elements (shape_outline (port_outline right.now))) outlet }
    requires left_depth { outline_depth (shape_outline (port_outline left.now)) ≤ 128 }
    requires right_depth { outline_depth (shape_outline (port_outline right.now)) ≤ 128 }
    ensures { IfOk result (λ net. net ≡ quantised_network k (port_outline left.now) (port_outline right.now) outlet) }
{
    let m = joint(left, right, false, k);
    let left = adaptors(alloc, left, k)?;
    let right = adaptors(alloc, right, k)?;
    let Ok(net) = Net::new(k, m, left, right, outlet) else {
        unreachable!();
    };
    Ok(net)
}

// The adaptors of a tree of ports.
fn adaptors(alloc: Global, tree: &PortTree, k: u8) -> Result<Tree, AllocError>
    requires some { 1 ≤ k }
    requires few { k ≤ 20 }
    requires ratios { HaveRatios (port_outline tree.now) }
    ensures { IfOk result (λ t. adaptor_tree t ≡ quantised (2 ^ k) (port_outline tree.now)) }
{
    match tree {
        PortTree::Leaf {
            elem,
            kind,
            flip,
            ..
        } => Ok(Tree::Leaf {
            elem: *elem,
            kind: *kind,
            flip: *flip,
        }),
        PortTree::Series { l, r, .. } => Ok(Tree::Series {
            m: joint(l, r, true, k),
            l: Box::new(alloc, adaptors(alloc, l, k)?)?,
            r: Box::new(alloc, adaptors(alloc, r, k)?)?,
        }),
        PortTree::Parallel { l, r, .. } => Ok(Tree::Parallel {
            m: joint(l, r, false, k),
            l: Box::new(alloc, adaptors(alloc, l, k)?)?,
            r: Box::new(alloc, adaptors(alloc, r, k)?)?,
        }),
    }
}

// The multiplier of the adaptor that joins two trees.
#[tactic(auto, using(crate::proofs::QuantisedLemmas::own_ratio))]
fn joint(left: &PortTree, right: &PortTree, series: bool, k: u8) -> u32
    requires some { 1 ≤ k }
    requires few { k ≤ 20 }
    requires left { HaveRatios (port_outline left.now) }
    requires right { HaveRatios (port_outline right.now) }
    ensures value { result ≡ multiplier (2 ^ k) series (ratio_of (port_outline left.now)) (ratio_of (port_outline right.now)) }
{
    multiplier(left.ratio(), right.ratio(), series, k)
}
