ghost use Rattle.std.specs.Prelude.{◌≡◌, ◌≤◌, length, nat_le, IfNone, IfOk};
ghost use Rattle.wdf_law.specs.Trees.{adaptor_tree, depth_of, elements_of, first_of};
ghost use Rattle.wdf_law.specs.Network.{adaptors_of, multipliers_of, numbers_of, has_kind};
ghost use Rattle.wdf_law.specs.Roles.{is_of};
ghost use Rattle.wdf_law.specs.Refusal.{first_out, first_large};
ghost use Rattle.wdf_law.specs.Marks.{first_marked, marked, number_behind};

use crate::Kind;
use crate::role::Role;
use std::alloc::{AllocError, Global};

/// A tree of adaptors. A multiplier `m` stands for `m/2^k`, with the width `k` of its network.
#[derive(Drop)]
pub enum Tree {
    /// The element with the number `elem`. `flip` is set where the element is written against the
    /// direction of its place in the tree.
    Leaf { elem: u32, kind: Kind, flip: bool },
    /// A series adaptor: one current, and voltages that add.
    Series { m: u32, l: Box<Tree>, r: Box<Tree> },
    /// A parallel adaptor: one voltage, and currents that add.
    Parallel { m: u32, l: Box<Tree>, r: Box<Tree> },
}

impl Tree {
    /// The same tree once more.
    ///
    /// # Errors
    ///
    /// Where no memory is left.
    pub fn copy(&self, alloc: Global) -> Result<Tree, AllocError>
        ensures { IfOk result (λ tree. adaptor_tree tree ≡ adaptor_tree self.now) }
    {
        match self {
            Tree::Leaf { elem, kind, flip } => Ok(Tree::Leaf {
                elem: *elem,
                kind: *kind,
                flip: *flip,
            }),
            Tree::Series { m, l, r } => {
                let l = Box::new(alloc, l.copy(alloc)?)?;
                let r = Box::new(alloc, r.copy(alloc)?)?;
                Ok(Tree::Series { m: *m, l, r })
            }
            Tree::Parallel { m, l, r } => {
                let l = Box::new(alloc, l.copy(alloc)?)?;
                let r = Box::new(alloc, r.copy(alloc)?)?;
                Ok(Tree::Parallel { m: *m, l, r })
            }
        }
    }

    /// 0 for a leaf, and one more than its deeper part for a junction.
    pub fn depth(&self) -> usize
        requires { depth_of (adaptor_tree self.now) ≤ 128 }
        ensures { result ≡ depth_of (adaptor_tree self.now) }
    {
        match self {
            Tree::Leaf { .. } => 0,
            Tree::Series { l, r, .. } | Tree::Parallel { l, r, .. } => 1 + l.depth().max(r.depth()),
        }
    }

    /// How many leaves the tree has.
    pub fn leaf_count(&self) -> usize
        requires { length (elements_of (adaptor_tree self.now)) ≤ 128 }
        ensures { result ≡ length (elements_of (adaptor_tree self.now)) }
    {
        match self {
            Tree::Leaf { .. } => 1,
            Tree::Series { l, r, .. } | Tree::Parallel { l, r, .. } => l.leaf_count()
                + r.leaf_count(),
        }
    }

    /// The number of the first leaf, the first part before the second.
    pub fn first_leaf(&self) -> u32
        ensures { result ≡ first_of (adaptor_tree self.now) }
    {
        match self {
            Tree::Leaf { elem, .. } => *elem,
            Tree::Series { l, .. } | Tree::Parallel { l, .. } => l.first_leaf(),
        }
    }

    // Whether no leaf stands below `limit` junctions or more.
    pub(crate) fn within(&self, limit: usize) -> bool
        ensures { result ≡ nat_le (depth_of (adaptor_tree self.now)) limit }
    {
        match self {
            Tree::Leaf { .. } => true,
            Tree::Series { l, r, .. } | Tree::Parallel { l, r, .. } => {
                limit > 0 && l.within(limit - 1) && r.within(limit - 1)
            }
        }
    }

    // The first leaf of the first junction whose multiplier is not in 1..=q-1.
    #[tactic(auto, using(crate::proofs::Walks::walks))]
    pub(crate) fn first_out(&self, q: u32) -> Option<u32>
        ensures { result ≡ first_out q (adaptors_of (adaptor_tree self.now)) }
    {
        match self {
            Tree::Leaf { .. } => None,
            Tree::Series { m, l, r } | Tree::Parallel { m, l, r } => {
                if *m < 1 || *m >= q {
                    return Some(l.first_leaf());
                }
                match l.first_out(q) {
                    Some(elem) => Some(elem),
                    None => r.first_out(q),
                }
            }
        }
    }

    // The first number of 128 or more.
    #[tactic(auto, using(crate::proofs::Walks::walks))]
    pub(crate) fn first_large(&self) -> Option<u32>
        ensures { result ≡ first_large (numbers_of (adaptor_tree self.now)) }
    {
        match self {
            Tree::Leaf { elem, .. } => { if *elem >= 128 { Some(*elem) } else { None } }
            Tree::Series { l, r, .. } | Tree::Parallel { l, r, .. } => match l.first_large() {
                Some(elem) => Some(elem),
                None => r.first_large(),
            },
        }
    }

    // The first number that is marked already. The others below 128 are marked on the way.
    #[tactic(auto, using(crate::proofs::Walks::walks))]
    pub(crate) fn mark(&self, marks: &mut [bool; 128]) -> Option<u32>
        ensures first { result ≡ first_marked marks.old (numbers_of (adaptor_tree self.now)) }
        ensures marks { IfNone result (marks.new ≡ marked marks.old (numbers_of (adaptor_tree self.now))) }
    {
        match self {
            Tree::Leaf { elem, .. } => {
                let at = *elem as usize;
                if at < 128 {
                    if marks[at] {
                        return Some(*elem);
                    }
                    marks[at] = true;
                }
                None
            }
            Tree::Series { l, r, .. } | Tree::Parallel { l, r, .. } => match l.mark(marks) {
                Some(elem) => Some(elem),
                None => r.mark(marks),
            },
        }
    }

    // The multiplier behind `skip` others, a junction before its parts, or how many are still to skip.
    #[tactic(auto, using(crate::proofs::Walks::walks))]
    pub(crate) fn multiplier_behind(&self, skip: usize) -> Result<u32, usize>
        ensures { result ≡ number_behind skip (multipliers_of (adaptor_tree self.now)) }
    {
        match self {
            Tree::Leaf { .. } => Err(skip),
            Tree::Series { m, l, r } | Tree::Parallel { m, l, r } => {
                if skip == 0 {
                    return Ok(*m);
                }
                match l.multiplier_behind(skip - 1) {
                    Ok(m) => Ok(m),
                    Err(left) => r.multiplier_behind(left),
                }
            }
        }
    }

    // Whether an element of this role has this number.
    #[tactic(auto, using(crate::proofs::Walks::walks))]
    pub(crate) fn has(&self, role: Role, number: u32) -> bool
        ensures { result ≡ has_kind (is_of role) (elements_of (adaptor_tree self.now)) number }
    {
        match self {
            Tree::Leaf { elem, kind, .. } => *elem == number && kind.is_of(role),
            Tree::Series { l, r, .. } | Tree::Parallel { l, r, .. } => {
                l.has(role, number) || r.has(role, number)
            }
        }
    }
}
