// A frame of several runs at once, from their sources' values.
ghost use Rattle.std.specs.Prelude.{◌≡◌, ℕ, ◌+◌, ◌-◌, ◌<◌, ◌≤◌, ◌^◌, length, map};
ghost use Rattle.wdf_loop.specs.Frames.{AreSigns};
ghost use Rattle.wdf_loop.specs.Layouts.{IsRowOfChains, chain_at, feed_at};
ghost use Rattle.wdf_loop.specs.Pairs.{ArePairs};
ghost use Rattle.wdf_loop.specs.Runs.{AreShares};
ghost use Rattle.wdf_loop.specs.Shows.{AreSmallValues};
ghost use Rattle.wdf_loop.specs.Steps.{AllCanStep, HaveStepped};

use crate::chain::Chain;
use crate::feed::Feed;
use crate::feeding::feed;
use crate::frame::frame;
use crate::pairs::Pairs;
use crate::share::Share;
use crate::stage_row::StageRow;

/// A frame of each run from the sources' values, a row for each source, source 0 first: the cells
/// come to show the values that follow from those that they showed. The root is the last stage.
#[inline(always)]
pub(crate) fn step<const K: u32, const C: usize, const ALONE: bool, R: StageRow<K, C>>(
    shares: &[Share],
    chains: &[Chain],
    top: Chain,
    pairs: Pairs,
    feeds: &[Feed],
    cells: &mut [R],
    root: usize,
    values: &[[i64; C]],
)
    requires some { 1 ≤ K }
    requires few { K ≤ 20 }
    requires runs { C ≤ 8 }
    requires stages { length cells.old ≡ root + 1 }
    requires each { length shares.now ≡ root + 1 }
    requires shares { AreShares (2 ^ K) shares.now }
    requires chains { IsRowOfChains root chains.now }
    requires top { chain_at chains.now (length chains.now - 1) ≡ top }
    requires pairs { ArePairs shares.now top.first top.end pairs }
    requires signs { AreSigns chains.now }
    requires sources { length values.now ≡ length feeds.now }
    requires feeds { (i : ℕ) → i < length feeds.now → (feed_at feeds.now i).stage ≤ root }
    requires small { AreSmallValues C values.now }
    requires can { AllCanStep C (2 ^ K) root shares.now chains.now feeds.now (map R.cells cells.old) values.now }
    ensures { HaveStepped C (2 ^ K) root shares.now chains.now feeds.now (map R.cells cells.old) values.now (map R.cells cells.new) }
{
    feed::<C, R>(feeds, cells, values);
    frame::<K, C, ALONE, R>(shares, chains, top, pairs, cells, root);
}
