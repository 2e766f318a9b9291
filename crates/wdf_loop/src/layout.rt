ghost use Rattle.std.specs.Prelude.{IfOk};
ghost use Rattle.wdf_loop.specs.Layouts.{IsLayout};

use crate::chain::Chain;
use crate::chains::chains_of;
use crate::feed::Feed;
use crate::feeds::feeds_of;
use crate::mark::Mark;
use crate::row::{Row, row_of};
use crate::share::Share;
use std::alloc::{AllocError, Global};
use wdf_sched::Schedule;

/// How the operations of a schedule lie in a row: a stage for each junction, in the order of the way
/// up, and the root's behind them. No frame changes it.
#[derive(Drop)]
pub(crate) struct Layout {
    /// By the stages.
    pub(crate) shares: Vec<Share>,
    /// By the stages.
    pub(crate) marks: Vec<Mark>,
    /// In the order of the way up; the last is the tree below the root.
    pub(crate) chains: Vec<Chain>,
    /// By the sources, source 0 first.
    pub(crate) feeds: Vec<Feed>,
}

/// The layout of a schedule.
///
/// # Errors
///
/// Where no memory is left.
pub(crate) fn layout_of(alloc: Global, schedule: &Schedule) -> Result<Layout, AllocError>
    ensures { IfOk result (λ v. IsLayout schedule.now v.shares.items v.marks.items v.chains.items v.feeds.items) }
{
    let net = schedule.net();
    net.rules();
    let Row { shares, marks } = row_of(alloc, schedule)?;
    let chains = chains_of(alloc, net, &marks)?;
    let feeds = feeds_of(alloc, net, &marks)?;
    Ok(Layout {
        shares,
        marks,
        chains,
        feeds,
    })
}
