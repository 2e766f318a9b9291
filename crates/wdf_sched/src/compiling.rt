ghost use Rattle.std.specs.Prelude.{◌≡◌, ◌≤◌, ◌++◌, length, map, IfOk, OnOk};
ghost use Rattle.std.specs.List.{range_with_len};
ghost use Rattle.wdf_law.specs.Trees.{adaptor_tree};
ghost use Rattle.wdf_law.specs.Network.{elements};
ghost use Rattle.wdf_sched.specs.Operations.{InOrder};
ghost use Rattle.wdf_sched.specs.Meaning.{Computes};
ghost use Rattle.wdf_sched.specs.Compiled.{IsBelow, IsMade, all_ops, all_slots, down_slot};

use crate::descent::{fall, has_leaf, leaf_slot, push_down};
use crate::rise::{push_up, rise, up_slot};
use crate::{Op, Schedule};
use std::alloc::{AllocError, Global};
use wdf_law::{Net, Tree, laws};

// A network has room for its slots, and what is made of it below is a schedule.
fn made(net: &Net)
    ensures { IsMade net.now }
{
    net.rules();
    laws::numbers(net);
    laws::multipliers(net);
    laws::one_step(net);
}

// Adds the operations of two trees that are joined at a root with the multiplier `m`. The slots
// below `count` are their elements'.
fn push_all(
    left: &Tree,
    right: &Tree,
    m: u32,
    count: u16,
    ops: &mut Vec<Op>,
) -> Result<(), AllocError>
    requires left_below { IsBelow 128 (adaptor_tree left.now) }
    requires right_below { IsBelow 128 (adaptor_tree right.now) }
    requires room { all_slots (adaptor_tree left.now) (adaptor_tree right.now) count ≤ 1024 }
    ensures { OnOk result (ops.new.items ≡ ops.old.items ++ all_ops m (adaptor_tree left.now) (adaptor_tree right.now) count) }
{
    let second = count + rise(left);
    let root = second + rise(right);
    push_up(left, count, ops)?;
    push_up(right, second, ops)?;
    let a = up_slot(left, count);
    let b = up_slot(right, second);
    let x = root;
    let y = root + 1;
    ops.push(Op::Root { a, b, m, x, y })?;
    push_down(right, second, y, root + 2, ops)?;
    push_down(left, count, x, root + 2 + fall(right), ops)
}

// The down slot of the element with this number.
fn down_slot(left: &Tree, right: &Tree, count: u16, number: u32) -> u16
    requires { all_slots (adaptor_tree left.now) (adaptor_tree right.now) count ≤ 1024 }
    ensures { result ≡ down_slot (adaptor_tree left.now) (adaptor_tree right.now) count number }
{
    let root = count + rise(left) + rise(right);
    if has_leaf(left, number) {
        leaf_slot(left, root, root + 2 + fall(right), number)
    } else {
        leaf_slot(right, root + 1, root + 2, number)
    }
}

// Those of the elements below `count`.
fn down_slots(alloc: Global, left: &Tree, right: &Tree, count: u16) -> Result<Vec<u16>, AllocError>
    requires { all_slots (adaptor_tree left.now) (adaptor_tree right.now) count ≤ 1024 }
    ensures { IfOk result (λ v. v.items ≡ map (down_slot (adaptor_tree left.now) (adaptor_tree right.now) count) (range_with_len 0 count)) }
{
    (0..u32::from(count))
        .map(|number| down_slot(left, right, count, number))
        .collect(alloc)
}

// How many slots there are.
fn slot_count(left: &Tree, right: &Tree, count: u16) -> u16
    requires { all_slots (adaptor_tree left.now) (adaptor_tree right.now) count ≤ 1024 }
    ensures { result ≡ all_slots (adaptor_tree left.now) (adaptor_tree right.now) count }
{
    count + rise(left) + rise(right) + 2 + fall(right) + fall(left)
}

/// The schedule of a network.
///
/// The operations of the way up come first: those of the left tree, then those of the right tree,
/// each junction behind its first and its second part. Then comes the root, and then the way down in
/// exactly the reverse order of the way up.
///
/// # Errors
///
/// Where no memory is left.
pub fn compile(alloc: Global, net: Net) -> Result<Schedule, AllocError>
    ensures network { IfOk result (λ schedule. schedule.net ≡ net) }
    ensures order { IfOk result (λ schedule. InOrder (length (elements net)) schedule.ops schedule.slot_count) }
    ensures computes { IfOk result (λ schedule. Computes net schedule.ops schedule.down_slots) }
{
    made(&net);
    let count = net.element_count() as u16;
    let mut ops = Vec::new(alloc);
    push_all(net.left(), net.right(), net.root_m(), count, &mut ops)?;
    let down_slots = down_slots(alloc, net.left(), net.right(), count)?;
    let slot_count = slot_count(net.left(), net.right(), count);
    Ok(Schedule {
        net,
        ops,
        down_slots,
        slot_count,
    })
}
