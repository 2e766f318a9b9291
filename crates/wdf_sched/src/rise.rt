// The way up a tree: its operations, and the slots that they write.
ghost use Rattle.std.specs.Prelude.{◌≡◌, ◌+◌, ◌≤◌, ◌++◌, OnOk};
ghost use Rattle.wdf_law.specs.Trees.{adaptor_tree};
ghost use Rattle.wdf_sched.specs.Compiled.{IsBelow, rise, up_slot, up_ops};

use crate::Op;
use std::alloc::AllocError;
use wdf_law::Tree;

/// How many slots the way up a tree writes.
pub(crate) fn rise(tree: &Tree) -> u16
    requires { rise (adaptor_tree tree.now) ≤ 1024 }
    ensures { result ≡ rise (adaptor_tree tree.now) }
{
    match tree {
        Tree::Leaf { .. } => 0,
        Tree::Series { l, r, .. } => rise(l) + rise(r) + 1,
        Tree::Parallel { l, r, .. } => rise(l) + rise(r) + 2,
    }
}

/// The slot of the wave that a tree reflects, where its way up writes from `next` on: for an element
/// the slot of its number.
pub(crate) fn up_slot(tree: &Tree, next: u16) -> u16
    requires below { IsBelow 128 (adaptor_tree tree.now) }
    requires room { next + rise (adaptor_tree tree.now) ≤ 1024 }
    ensures { result ≡ up_slot (adaptor_tree tree.now) next }
{
    match tree {
        Tree::Leaf { elem, .. } => *elem as u16,
        Tree::Series { l, r, .. } => next + rise(l) + rise(r),
        Tree::Parallel { l, r, .. } => next + rise(l) + rise(r) + 1,
    }
}

/// Adds the operations of the way up a tree, the first part before the second and the junction
/// behind both; they write the slots from `next` on.
pub(crate) fn push_up(tree: &Tree, next: u16, ops: &mut Vec<Op>) -> Result<(), AllocError>
    requires below { IsBelow 128 (adaptor_tree tree.now) }
    requires room { next + rise (adaptor_tree tree.now) ≤ 1024 }
    ensures { OnOk result (ops.new.items ≡ ops.old.items ++ up_ops (adaptor_tree tree.now) next) }
{
    match tree {
        Tree::Leaf { .. } => Ok(()),
        Tree::Series { l, r, .. } => {
            let second = next + rise(l);
            push_up(l, next, ops)?;
            push_up(r, second, ops)?;
            let a = up_slot(l, next);
            let b = up_slot(r, second);
            let out = second + rise(r);
            ops.push(Op::UpSeries { a, b, out })?;
            Ok(())
        }
        Tree::Parallel { m, l, r } => {
            let second = next + rise(l);
            push_up(l, next, ops)?;
            push_up(r, second, ops)?;
            let a = up_slot(l, next);
            let b = up_slot(r, second);
            let raw = second + rise(r);
            let out = raw + 1;
            ops.push(Op::UpParallel {
                a,
                b,
                m: *m,
                raw,
                out,
            })?;
            Ok(())
        }
    }
}
