ghost use Rattle.std.specs.Prelude.{◌≡◌, ◌+◌, ◌*◌, ◌^◌, ◌<◌, ◌≤◌, ◌∷◌, [], true, IfOk};
ghost use Rattle.wdf_law.specs.Trees.{adaptor_tree, first_of};
ghost use Rattle.wdf_law.specs.Network.{has_leaf};
ghost use Rattle.wdf_law.specs.TreeRules.{IsSound};
ghost use Rattle.wdf_quant.specs.PortBound.{carried, own, beneath, reached, around, zeros, summed, listed};
ghost use Rattle.wdf_quant.specs.RatioTrees.{tree_of, ratios_in, sums_in, AreAtMost, chained, beside, HasWay, Fills, Climbs, Lists};

use crate::port_sum::{LIMIT, PortSum};
use crate::wide_port::WidePort;
use crate::{PortRatio, RatioFault};
use std::alloc::{AllocError, Global};
use wdf_frac::mul_div_up;
use wdf_law::{Kind, Tree};

// The ratio of a source's own port.
const ONE: u128 = 1 << 40;

// A tree of adaptors, with the ratio of each port seen from one source and the sum of its ratios so
// far. The unit of a multiplier is 1/`unit`.
#[derive(Drop)]
pub(crate) enum RatioTree {
    Leaf {
        elem: u32,
        kind: Kind,
        flip: bool,
        port: PortSum,
    },
    Series {
        m: u32,
        port: PortSum,
        l: Box<RatioTree>,
        r: Box<RatioTree>,
    },
    Parallel {
        m: u32,
        port: PortSum,
        l: Box<RatioTree>,
        r: Box<RatioTree>,
    },
}

impl RatioTree {
    // The tree with 0 at each port.
    pub(crate) fn new(alloc: Global, tree: &Tree) -> Result<RatioTree, AllocError>
        ensures tree { IfOk result (λ t. tree_of t ≡ adaptor_tree tree.now) }
        ensures sums { IfOk result (λ t. sums_in t ≡ zeros (adaptor_tree tree.now)) }
    {
        match tree {
            Tree::Leaf { elem, kind, flip } => Ok(RatioTree::Leaf {
                elem: *elem,
                kind: *kind,
                flip: *flip,
                port: PortSum::zero(),
            }),
            Tree::Series { m, l, r } => Ok(RatioTree::Series {
                m: *m,
                port: PortSum::zero(),
                l: Box::new(alloc, RatioTree::new(alloc, l)?)?,
                r: Box::new(alloc, RatioTree::new(alloc, r)?)?,
            }),
            Tree::Parallel { m, l, r } => Ok(RatioTree::Parallel {
                m: *m,
                port: PortSum::zero(),
                l: Box::new(alloc, RatioTree::new(alloc, l)?)?,
                r: Box::new(alloc, RatioTree::new(alloc, r)?)?,
            }),
        }
    }

    // The number of the first leaf.
    pub(crate) fn first_leaf(&self) -> u32
        ensures { result ≡ first_of (tree_of self.now) }
    {
        match self {
            RatioTree::Leaf { elem, .. } => *elem,
            RatioTree::Series { l, .. } | RatioTree::Parallel { l, .. } => l.first_leaf(),
        }
    }

    // Whether a leaf has this number.
    #[tactic(auto, using(std::proofs::lemmas::Grind::common_steps))]
    pub(crate) fn has_leaf(&self, number: u32) -> bool
        ensures { result ≡ has_leaf (tree_of self.now) number }
    {
        match self {
            RatioTree::Leaf { elem, .. } => *elem == number,
            RatioTree::Series { l, r, .. } | RatioTree::Parallel { l, r, .. } => {
                l.has_leaf(number) || r.has_leaf(number)
            }
        }
    }

    // The ratio of the tree's own port.
    pub(crate) fn ratio(&self) -> u64
        ensures { result ≡ own (ratios_in self.now) }
    {
        match self {
            RatioTree::Leaf { port, .. }
            | RatioTree::Series { port, .. }
            | RatioTree::Parallel { port, .. } => port.ratio,
        }
    }

    // Fills a tree that the source is not in, whose own port has the ratio `p`.
    #[tactic(auto, using(crate::proofs::Listings::listings))]
    pub(crate) fn spread(&mut self, unit: u32, p: u128) -> Result<(), WidePort>
        requires sound { IsSound unit (tree_of self.old) }
        ensures tree { tree_of self.new ≡ tree_of self.old }
        ensures sums { sums_in self.new ≡ sums_in self.old }
        ensures filled { Fills (listed (tree_of self.old) (beneath unit (tree_of self.old) p)) (beneath unit (tree_of self.old) p) (ratios_in self.new) result }
    {
        match self {
            RatioTree::Leaf { elem, port, .. } => {
                port.take_ratio(*elem, p)?;
                Ok(())
            }
            RatioTree::Series { m, port, l, r } => {
                port.take_ratio(l.first_leaf(), p)?;
                l.spread(unit, carried(port.ratio, *m, unit))?;
                r.spread(unit, carried(port.ratio, unit - *m, unit))?;
                Ok(())
            }
            RatioTree::Parallel { m, port, l, r } => {
                port.take_ratio(l.first_leaf(), p)?;
                l.spread(unit, carried(port.ratio, unit, *m))?;
                r.spread(unit, carried(port.ratio, unit, unit - *m))?;
                Ok(())
            }
        }
    }

    // Fills the ports on the way from the source up to the tree's own port.
    #[tactic(auto, using(crate::proofs::Listings::listings))]
    pub(crate) fn climb(&mut self, unit: u32, source: u32) -> Result<(), WidePort>
        requires sound { IsSound unit (tree_of self.old) }
        ensures tree { tree_of self.new ≡ tree_of self.old }
        ensures sums { sums_in self.new ≡ sums_in self.old }
        ensures climbed { Climbs unit source (tree_of self.old) self.new result }
        ensures own { IfOk result (λ _. own (ratios_in self.new) ≡ reached unit source (tree_of self.old)) }
    {
        match self {
            RatioTree::Leaf { elem, port, .. } => {
                port.take_ratio(*elem, ONE)?;
                Ok(())
            }
            RatioTree::Series { m, port, l, r } => {
                if l.has_leaf(source) {
                    l.climb(unit, source)?;
                    port.take_ratio(l.first_leaf(), carried(l.ratio(), unit, *m))?;
                    Ok(())
                } else {
                    r.climb(unit, source)?;
                    port.take_ratio(l.first_leaf(), carried(r.ratio(), unit, unit - *m))?;
                    Ok(())
                }
            }
            RatioTree::Parallel { m, port, l, r } => {
                if l.has_leaf(source) {
                    l.climb(unit, source)?;
                    port.take_ratio(l.first_leaf(), carried(l.ratio(), *m, unit))?;
                    Ok(())
                } else {
                    r.climb(unit, source)?;
                    port.take_ratio(l.first_leaf(), carried(r.ratio(), unit - *m, unit))?;
                    Ok(())
                }
            }
        }
    }

    // Fills the ports beside that way, from the tree's own port back to the source.
    #[tactic(auto, using(crate::proofs::Listings::listings))]
    pub(crate) fn spread_beside(&mut self, unit: u32, source: u32) -> Result<(), WidePort>
        requires sound { IsSound unit (tree_of self.old) }
        requires way { HasWay unit source self.old }
        ensures tree { tree_of self.new ≡ tree_of self.old }
        ensures sums { sums_in self.new ≡ sums_in self.old }
        ensures filled { Fills (beside source (tree_of self.old) (around unit source (tree_of self.old))) (around unit source (tree_of self.old)) (ratios_in self.new) result }
    {
        match self {
            RatioTree::Leaf { .. } => Ok(()),
            RatioTree::Series { m, port, l, r } => {
                if l.has_leaf(source) {
                    r.spread(unit, carried(port.ratio, unit - *m, unit))?;
                    l.spread_beside(unit, source)?;
                    Ok(())
                } else {
                    l.spread(unit, carried(port.ratio, *m, unit))?;
                    r.spread_beside(unit, source)?;
                    Ok(())
                }
            }
            RatioTree::Parallel { m, port, l, r } => {
                if l.has_leaf(source) {
                    r.spread(unit, carried(port.ratio, unit, unit - *m))?;
                    l.spread_beside(unit, source)?;
                    Ok(())
                } else {
                    l.spread(unit, carried(port.ratio, unit, *m))?;
                    r.spread_beside(unit, source)?;
                    Ok(())
                }
            }
        }
    }

    // Adds the ratio of each port to its sum, which is one of `before` ratios.
    pub(crate) fn gather(&mut self, before: u32)
        requires few { before ≤ 8 }
        requires sums { AreAtMost (before * 2 ^ 64) (sums_in self.old) }
        ensures tree { tree_of self.new ≡ tree_of self.old }
        ensures sums { sums_in self.new ≡ summed (sums_in self.old) (ratios_in self.old) }
        ensures most { AreAtMost ((before + 1) * 2 ^ 64) (sums_in self.new) }
    {
        match self {
            RatioTree::Leaf { port, .. } => port.gather(),
            RatioTree::Series { port, l, r, .. } => {
                port.gather();
                l.gather(before);
                r.gather(before);
            }
            RatioTree::Parallel { port, l, r, .. } => {
                port.gather();
                l.gather(before);
                r.gather(before);
            }
        }
    }

    // Appends the sums of all ports, the own port first and the first part before the second.
    #[tactic(auto, using(crate::proofs::Listings::listings))]
    pub(crate) fn list(&self, ports: &mut Vec<PortRatio>) -> Result<(), RatioFault>
        ensures { Lists (listed (tree_of self.now) (sums_in self.now)) ports.old.items ports.new.items result }
    {
        match self {
            RatioTree::Leaf { elem, port, .. } => {
                push(ports, *elem, true, port.sum)?;
                Ok(())
            }
            RatioTree::Series { port, l, r, .. } | RatioTree::Parallel { port, l, r, .. } => {
                push(ports, l.first_leaf(), false, port.sum)?;
                l.list(ports)?;
                r.list(ports)?;
                Ok(())
            }
        }
    }

    // Appends those from the source up to the own port.
    #[tactic(auto, using(crate::proofs::Listings::listings))]
    pub(crate) fn list_way(&self, source: u32, ports: &mut Vec<PortRatio>) -> Result<(), RatioFault>
        ensures { Lists (chained source (tree_of self.now) (sums_in self.now)) ports.old.items ports.new.items result }
    {
        match self {
            RatioTree::Leaf { elem, port, .. } => {
                push(ports, *elem, true, port.sum)?;
                Ok(())
            }
            RatioTree::Series { port, l, r, .. } | RatioTree::Parallel { port, l, r, .. } => {
                if l.has_leaf(source) {
                    l.list_way(source, ports)?;
                    push(ports, l.first_leaf(), false, port.sum)?;
                    Ok(())
                } else {
                    r.list_way(source, ports)?;
                    push(ports, l.first_leaf(), false, port.sum)?;
                    Ok(())
                }
            }
        }
    }

    // Appends those beside that way, from the own port back to the source.
    #[tactic(auto, using(crate::proofs::Listings::listings))]
    pub(crate) fn list_beside(
        &self,
        source: u32,
        ports: &mut Vec<PortRatio>,
    ) -> Result<(), RatioFault>
        ensures { Lists (beside source (tree_of self.now) (sums_in self.now)) ports.old.items ports.new.items result }
    {
        match self {
            RatioTree::Leaf { .. } => Ok(()),
            RatioTree::Series { l, r, .. } | RatioTree::Parallel { l, r, .. } => {
                if l.has_leaf(source) {
                    r.list(ports)?;
                    l.list_beside(source, ports)?;
                    Ok(())
                } else {
                    l.list(ports)?;
                    r.list_beside(source, ports)?;
                    Ok(())
                }
            }
        }
    }
}

// Appends a port with its number, if that is not too wide.
fn push(ports: &mut Vec<PortRatio>, elem: u32, leaf: bool, sum: u128) -> Result<(), RatioFault>
    ensures { Lists (record { elem = elem; leaf = leaf; ratio = sum } ∷ []) ports.old.items ports.new.items result }
{
    if sum > LIMIT {
        return Err(RatioFault::Wide {
            element: elem,
            need: sum,
        });
    }
    ports.push(PortRatio {
        elem,
        leaf,
        ratio: sum as u64,
    })?;
    Ok(())
}

// p·a/b, rounded up.
pub(crate) fn carried(p: u64, a: u32, b: u32) -> u128
    requires { 0 < b }
    ensures { result ≡ carried p a b }
{
    let Some(next) = mul_div_up(u128::from(p), u128::from(a), u128::from(b)) else {
        unreachable!();
    };
    next
}
