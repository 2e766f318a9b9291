ghost use Rattle.std.specs.Prelude.{◌≡◌, ◌+◌, ◌*◌, ◌^◌, ◌<◌, ◌≤◌, IfOk};
ghost use Rattle.wdf_law.specs.TreeRules.{IsSound};
ghost use Rattle.wdf_quant.specs.PortBound.{ratios_between, summed, walk_between, zeros};
ghost use Rattle.wdf_quant.specs.RatioTrees.{tree_of, ratios_in, sums_in, ratios_of, sums_of, AreAtMost, Fills, IsListOf};

use crate::ratio_tree::{RatioTree, carried};
use crate::wide_port::WidePort;
use crate::{PortRatio, RatioFault};
use std::alloc::{AllocError, Global};
use wdf_law::Net;

// The two trees of a network, with the ratio and the sum of each port.
#[derive(Drop)]
pub(crate) struct RatioTrees {
    pub(crate) left: RatioTree,
    pub(crate) right: RatioTree,
}

impl RatioTrees {
    // The trees of a network with 0 at each port.
    pub(crate) fn new(alloc: Global, net: &Net) -> Result<RatioTrees, AllocError>
        ensures left { IfOk result (λ t. tree_of t.left ≡ net.now.left) }
        ensures right { IfOk result (λ t. tree_of t.right ≡ net.now.right) }
        ensures sums { IfOk result (λ t. sums_of t ≡ record { left = zeros net.now.left; right = zeros net.now.right }) }
    {
        let left = RatioTree::new(alloc, net.left())?;
        let right = RatioTree::new(alloc, net.right())?;
        Ok(RatioTrees { left, right })
    }

    // Fills in the ratios seen from a source, where the root joins the trees by `m`/`unit`.
    #[tactic(auto, using(crate::proofs::WalkLemmas::walks))]
    pub(crate) fn fill(&mut self, unit: u32, m: u32, source: u32) -> Result<(), WidePort>
        requires some { 1 ≤ m }
        requires few { m < unit }
        requires left { IsSound unit (tree_of self.old.left) }
        requires right { IsSound unit (tree_of self.old.right) }
        ensures left { tree_of self.new.left ≡ tree_of self.old.left }
        ensures right { tree_of self.new.right ≡ tree_of self.old.right }
        ensures sums { sums_of self.new ≡ sums_of self.old }
        ensures filled { Fills (walk_between (tree_of self.old.left) (tree_of self.old.right) source (ratios_between unit m (tree_of self.old.left) (tree_of self.old.right) source))
            (ratios_between unit m (tree_of self.old.left) (tree_of self.old.right) source) (ratios_of self.new) result }
    {
        if self.left.has_leaf(source) {
            self.left.climb(unit, source)?;
            self.right
                .spread(unit, carried(self.left.ratio(), m, unit - m))?;
            self.left.spread_beside(unit, source)?;
            Ok(())
        } else {
            self.right.climb(unit, source)?;
            self.left
                .spread(unit, carried(self.right.ratio(), unit - m, m))?;
            self.right.spread_beside(unit, source)?;
            Ok(())
        }
    }

    // Adds the ratio of each port to its sum, which is one of `before` ratios.
    pub(crate) fn gather(&mut self, before: u32)
        requires few { before ≤ 8 }
        requires left { AreAtMost (before * 2 ^ 64) (sums_in self.old.left) }
        requires right { AreAtMost (before * 2 ^ 64) (sums_in self.old.right) }
        ensures left { tree_of self.new.left ≡ tree_of self.old.left }
        ensures right { tree_of self.new.right ≡ tree_of self.old.right }
        ensures left_sums { sums_in self.new.left ≡ summed (sums_in self.old.left) (ratios_in self.old.left) }
        ensures right_sums { sums_in self.new.right ≡ summed (sums_in self.old.right) (ratios_in self.old.right) }
        ensures left_most { AreAtMost ((before + 1) * 2 ^ 64) (sums_in self.new.left) }
        ensures right_most { AreAtMost ((before + 1) * 2 ^ 64) (sums_in self.new.right) }
    {
        self.left.gather(before);
        self.right.gather(before);
    }

    // The ports with their sums, away from a source.
    #[tactic(auto, using(crate::proofs::WalkLemmas::walks))]
    pub(crate) fn list(&self, alloc: Global, source: u32) -> Result<Vec<PortRatio>, RatioFault>
        ensures { IsListOf (walk_between (tree_of self.now.left) (tree_of self.now.right) source (sums_of self.now)) result }
    {
        let mut ports = Vec::new(alloc);
        if self.left.has_leaf(source) {
            self.left.list_way(source, &mut ports)?;
            self.right.list(&mut ports)?;
            self.left.list_beside(source, &mut ports)?;
            Ok(ports)
        } else {
            self.right.list_way(source, &mut ports)?;
            self.left.list(&mut ports)?;
            self.right.list_beside(source, &mut ports)?;
            Ok(ports)
        }
    }
}
