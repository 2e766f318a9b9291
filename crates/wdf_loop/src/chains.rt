// Which chains the stages make.
ghost use Rattle.std.specs.Prelude.{◌≡◌, ℕ, ◌+◌, ◌<◌, ◌≤◌, length, IfOk};
ghost use Rattle.wdf_law.specs.Network.{elements};
ghost use Rattle.wdf_loop.specs.Chains.{AreChainsBefore, IsChainFrom, IsEnd, IsHook};
ghost use Rattle.wdf_loop.specs.Layouts.{mark_at};

use crate::chain::Chain;
use crate::leaf::sign_at;
use crate::mark::Mark;
use crate::row::count_of;
use std::alloc::{AllocError, Global};
use wdf_law::Net;

// The next stage behind this one that has an element below, or the root.
fn end_behind(marks: &[Mark], first: usize, count: u16) -> usize
    requires { first < length marks.now }
    ensures { IsEnd count marks.now first result }
{
    for stage in first + 1..marks.len() {
        if marks[stage].below < count {
            return stage;
        }
    }
    marks.len() - 1
}

// The stage beside which the tree hangs that reflects its wave in the slot `out`.
fn hook_of(marks: &[Mark], out: u16) -> usize
    requires { 0 < length marks.now }
    ensures { IsHook marks.now out result }
{
    for stage in 0..marks.len() {
        if marks[stage].up == out {
            return stage;
        }
    }
    0
}

// The stage beside which a chain with this end hangs.
fn hook_behind(marks: &[Mark], end: usize) -> usize
    requires { end < length marks.now }
    ensures within { result < length marks.now }
    ensures hook { (i : ℕ) → i + 1 ≡ end → IsHook marks.now (mark_at marks.now i).out result }
{
    if end == 0 {
        return 0;
    }
    hook_of(marks, marks[end - 1].out)
}

// The chain that begins at this stage.
fn chain_from(net: &Net, marks: &[Mark], first: usize) -> Chain
    requires begins { first < length marks.now }
    requires few { length marks.now ≤ 1024 }
    ensures first { result.first ≡ first }
    ensures chain { IsChainFrom net.now marks.now result }
{
    let end = end_behind(marks, first, count_of(net));
    let to = hook_behind(marks, end);
    let sign = sign_at(net, marks[first].below);
    Chain {
        first: first as u16,
        end: end as u16,
        to: to as u16,
        sign,
    }
}

/// The chains of a row of stages, the first of which has an element below.
///
/// # Errors
///
/// Where no memory is left.
pub(crate) fn chains_of(alloc: Global, net: &Net, marks: &[Mark]) -> Result<Vec<Chain>, AllocError>
    requires few { length marks.now ≤ 1024 }
    requires first { (mark_at marks.now 0).below < length (elements net.now) }
    ensures { IfOk result (λ v. AreChainsBefore net.now marks.now (length marks.now) v.items) }
{
    let count = count_of(net);
    let mut chains = Vec::new(alloc);
    for stage in 0..marks.len() {
        if marks[stage].below < count {
            chains.push(chain_from(net, marks, stage))?;
        }
    }
    Ok(chains)
}
