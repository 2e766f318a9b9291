ghost use Rattle.std.specs.Prelude.{◌≡◌, ◌+◌, ◌/◌, ◌≤◌, ◌^◌, length, map, IfOk};
ghost use Rattle.std.specs.List.{range_with_len};
ghost use Rattle.wdf_law.specs.Network.{elements, unit_of};
ghost use Rattle.wdf_loop.specs.Rows.{IsRow, mark_in, share_in};
ghost use Rattle.wdf_loop.specs.Stages.{stage_at};

use crate::leaf::sign_at;
use crate::mark::Mark;
use crate::share::Share;
use crate::stage::Stage;
use std::alloc::{AllocError, Global};
use wdf_law::Net;
use wdf_sched::Schedule;

/// The stages of a schedule: one for each junction, in the order of the way up, and the root's.
#[derive(Drop)]
pub(crate) struct Row {
    pub(crate) shares: Vec<Share>,
    pub(crate) marks: Vec<Mark>,
}

/// How many elements there are.
pub(crate) fn count_of(net: &Net) -> u16
    ensures value { result ≡ length (elements net.now) }
    ensures few { result ≤ 128 }
{
    net.element_count() as u16
}

// The units of a whole.
fn unit_of(net: &Net) -> u32
    ensures value { result ≡ unit_of net.now }
{
    1 << net.k()
}

// The stage with this number.
fn stage_at(schedule: &Schedule, i: usize) -> Stage
    requires { i ≤ length schedule.now.ops / 2 }
    ensures value { result ≡ stage_at schedule.now.ops i }
    ensures multiplier { result.m ≤ unit_of schedule.now.net }
{
    schedule.rules();
    let ops = schedule.ops();
    Stage::of(ops[i], ops[ops.len() - 1 - i])
}

fn mark_at(schedule: &Schedule, i: usize) -> Mark
    requires { i ≤ length schedule.now.ops / 2 }
    ensures { result ≡ mark_in schedule.now i }
{
    stage_at(schedule, i).mark(count_of(schedule.net()))
}

fn share_at(schedule: &Schedule, i: usize) -> Share
    requires { i ≤ length schedule.now.ops / 2 }
    ensures { result ≡ share_in schedule.now i }
{
    let net = schedule.net();
    let sign = sign_at(net, mark_at(schedule, i).up);
    stage_at(schedule, i).share(unit_of(net), count_of(net), sign)
}

fn marks(alloc: Global, schedule: &Schedule) -> Result<Vec<Mark>, AllocError>
    ensures { IfOk result (λ v. v.items ≡ map (mark_in schedule.now) (range_with_len 0 (length schedule.now.ops / 2 + 1))) }
{
    let mut marks = Vec::new(alloc);
    for i in 0..schedule.ops().len() / 2 + 1 {
        marks.push(mark_at(schedule, i))?;
    }
    Ok(marks)
}

fn shares(alloc: Global, schedule: &Schedule) -> Result<Vec<Share>, AllocError>
    ensures { IfOk result (λ v. v.items ≡ map (share_in schedule.now) (range_with_len 0 (length schedule.now.ops / 2 + 1))) }
{
    let mut shares = Vec::new(alloc);
    for i in 0..schedule.ops().len() / 2 + 1 {
        shares.push(share_at(schedule, i))?;
    }
    Ok(shares)
}

// Stages that are made so hang together.
fn made(schedule: &Schedule)
    ensures { IsRow schedule.now
        (map (share_in schedule.now) (range_with_len 0 (length schedule.now.ops / 2 + 1)))
        (map (mark_in schedule.now) (range_with_len 0 (length schedule.now.ops / 2 + 1))) }
{
    schedule.rules();
    schedule.net().rules();
}

/// The stages of a schedule.
///
/// # Errors
///
/// Where no memory is left.
pub(crate) fn row_of(alloc: Global, schedule: &Schedule) -> Result<Row, AllocError>
    ensures { IfOk result (λ row. IsRow schedule.now row.shares.items row.marks.items) }
{
    made(schedule);
    let shares = shares(alloc, schedule)?;
    let marks = marks(alloc, schedule)?;
    Ok(Row { shares, marks })
}
