// The beginning of runs.
ghost use Rattle.std.specs.Prelude.{◌≡◌, ◌≤◌, length, map, replicate, IfOk};
ghost use Rattle.wdf_bounds.specs.WordBound.{Fits};
ghost use Rattle.wdf_loop.specs.Advances.{AllAreAt};
ghost use Rattle.wdf_loop.specs.RunCells.{silent};

use crate::layout::Layout;
use crate::stage_row::RunRow;
use std::alloc::{AllocError, Global};
use wdf_bounds::Plan;
use wdf_sched::Schedule;

// The cells of so many stages before any frame.
fn cells_at_rest<const C: usize, R: RunRow<C> + Drop>(
    alloc: Global,
    stages: usize,
) -> Result<Vec<R>, AllocError>
    requires { C ≤ 8 }
    ensures { IfOk result (λ v. map R.cells v.items ≡ replicate stages (replicate C silent)) }
{
    let mut cells = Vec::new(alloc);
    for _ in 0..stages {
        cells.push(R::at_rest())?;
    }
    Ok(cells)
}

/// The cells of runs at rest, a row for each stage.
///
/// # Errors
///
/// Where no memory is left.
pub(crate) fn at_rest<const C: usize, R: RunRow<C> + Drop>(
    alloc: Global,
    schedule: &Schedule,
    plan: &Plan,
    layout: &Layout,
) -> Result<Vec<R>, AllocError>
    requires runs { C ≤ 8 }
    requires fits { Fits schedule.now.net plan.now }
    ensures stages { IfOk result (λ v. length v.items ≡ length layout.now.shares.items) }
    ensures silent { IfOk result (λ v. map R.cells v.items ≡ replicate (length layout.now.shares.items) (replicate C silent)) }
    ensures rest { IfOk result (λ v. AllAreAt C schedule.now plan.now 0 layout.now.shares.items layout.now.marks.items layout.now.chains.items layout.now.feeds.items (map R.cells v.items)) }
{
    wdf_bounds::laws::every_word(schedule.net(), plan);
    let cells = cells_at_rest::<C, R>(alloc, layout.shares.len())?;
    Ok(cells)
}
