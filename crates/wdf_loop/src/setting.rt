// What no frame changes.
ghost use Rattle.std.specs.Prelude.{◌≡◌, ◌+◌, ◌*◌, ◌≤◌, length, IfOk};
ghost use Rattle.wdf_bounds.specs.WordBound.{Fits};
ghost use Rattle.wdf_loop.specs.Settings.{IsSetting};

use crate::layout::{Layout, layout_of};
use crate::outlet::{Outlet, outlet_of};
use crate::parts::{Parts, parts_of};
use std::alloc::{AllocError, Global};
use wdf_bounds::Plan;
use wdf_sched::Schedule;

/// What an engine goes by: a schedule and a plan that fits its network, how the operations lie in a
/// row, and where the waves stand that elements are sent.
#[derive(Drop)]
pub(crate) struct Setting {
    pub(crate) schedule: Schedule,
    pub(crate) plan: Plan,
    pub(crate) layout: Layout,
    pub(crate) parts: Parts,
    pub(crate) outlet: Outlet,
    /// How many frames are made at once, at most.
    pub(crate) piece: usize,
}

// How many frames are made at once, where each has so many rows of values and waves: at most 2,048
// rows in all, which are 128 KiB for eight runs.
fn frames_at_once(rows: usize) -> usize
    requires some { 1 ≤ rows }
    requires few { rows ≤ 256 }
    ensures some { 1 ≤ result }
    ensures few { result ≤ 256 }
    ensures room { result * rows ≤ 2048 }
{
    (2048 / rows).min(256)
}

impl Setting {
    /// The setting of a schedule and a plan.
    ///
    /// # Errors
    ///
    /// Where no memory is left.
    pub(crate) fn new(alloc: Global, schedule: Schedule, plan: Plan) -> Result<Setting, AllocError>
        requires { Fits schedule.net plan }
        ensures setting { IfOk result (λ t. IsSetting t) }
        ensures schedule { IfOk result (λ t. t.schedule ≡ schedule) }
        ensures plan { IfOk result (λ t. t.plan ≡ plan) }
    {
        let layout = layout_of(alloc, &schedule)?;
        let parts = parts_of(alloc, &schedule, &layout)?;
        let net = schedule.net();
        net.rules();
        let outlet = outlet_of(net);
        let piece = frames_at_once(layout.feeds.len() + parts.absorbing.len());
        Ok(Setting {
            schedule,
            plan,
            layout,
            parts,
            outlet,
            piece,
        })
    }
}
