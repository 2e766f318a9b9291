// The way down a tree: its operations, and the slots that they write.
ghost use Rattle.std.specs.Prelude.{◌≡◌, ◌+◌, ◌≤◌, ◌++◌, OnOk};
ghost use Rattle.wdf_law.specs.Trees.{adaptor_tree};
ghost use Rattle.wdf_law.specs.Network.{has_leaf};
ghost use Rattle.wdf_sched.specs.Compiled.{IsBelow, rise, fall, down_ops, leaf_slot};

use crate::Op;
use crate::rise::{rise, up_slot};
use std::alloc::AllocError;
use wdf_law::Tree;

/// How many slots the way down a tree writes.
pub(crate) fn fall(tree: &Tree) -> u16
    requires { fall (adaptor_tree tree.now) ≤ 1024 }
    ensures { result ≡ fall (adaptor_tree tree.now) }
{
    match tree {
        Tree::Leaf { .. } => 0,
        Tree::Series { l, r, .. } | Tree::Parallel { l, r, .. } => fall(l) + fall(r) + 2,
    }
}

/// Adds the operations of the way down a tree, in the reverse order of its way up: the junction
/// before its second part, and that before the first. The way up wrote from `base` on, `d` is the
/// slot of the wave that the tree is sent, and the operations write the slots from `next` on.
pub(crate) fn push_down(
    tree: &Tree,
    base: u16,
    d: u16,
    next: u16,
    ops: &mut Vec<Op>,
) -> Result<(), AllocError>
    requires below { IsBelow 128 (adaptor_tree tree.now) }
    requires up_room { base + rise (adaptor_tree tree.now) ≤ 1024 }
    requires room { next + fall (adaptor_tree tree.now) ≤ 1024 }
    ensures { OnOk result (ops.new.items ≡ ops.old.items ++ down_ops (adaptor_tree tree.now) base d next) }
{
    match tree {
        Tree::Leaf { .. } => Ok(()),
        Tree::Series { m, l, r } => {
            let second = base + rise(l);
            let a = up_slot(l, base);
            let b = up_slot(r, second);
            let x = next;
            let y = next + 1;
            ops.push(Op::DownSeries {
                a,
                b,
                d,
                m: *m,
                x,
                y,
            })?;
            push_down(r, second, y, next + 2, ops)?;
            push_down(l, base, x, next + 2 + fall(r), ops)
        }
        Tree::Parallel { l, r, .. } => {
            let second = base + rise(l);
            let a = up_slot(l, base);
            let b = up_slot(r, second);
            let raw = second + rise(r);
            let x = next;
            let y = next + 1;
            ops.push(Op::DownParallel { a, b, d, raw, x, y })?;
            push_down(r, second, y, next + 2, ops)?;
            push_down(l, base, x, next + 2 + fall(r), ops)
        }
    }
}

/// Whether a leaf has this number.
#[tactic(auto, using(crate::proofs::LeafLemmas::leaf_either))]
pub(crate) fn has_leaf(tree: &Tree, number: u32) -> bool
    ensures { result ≡ has_leaf (adaptor_tree tree.now) number }
{
    match tree {
        Tree::Leaf { elem, .. } => *elem == number,
        Tree::Series { l, r, .. } | Tree::Parallel { l, r, .. } => {
            has_leaf(l, number) || has_leaf(r, number)
        }
    }
}

/// The slot of the wave that a leaf is sent, where the tree is sent that of the slot `d` and its way
/// down writes from `next` on.
pub(crate) fn leaf_slot(tree: &Tree, d: u16, next: u16, number: u32) -> u16
    requires { next + fall (adaptor_tree tree.now) ≤ 1024 }
    ensures { result ≡ leaf_slot (adaptor_tree tree.now) d next number }
{
    match tree {
        Tree::Leaf { .. } => d,
        Tree::Series { l, r, .. } | Tree::Parallel { l, r, .. } => {
            if has_leaf(l, number) {
                leaf_slot(l, next, next + 2 + fall(r), number)
            } else {
                leaf_slot(r, next + 1, next + 2, number)
            }
        }
    }
}
