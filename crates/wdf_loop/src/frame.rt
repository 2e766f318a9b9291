// A frame, in several runs at once: up all chains, round at the root, and down.
ghost use Rattle.std.specs.Prelude.{◌≡◌, ◌+◌, ◌-◌, ◌≤◌, ◌^◌, length, map};
ghost use Rattle.wdf_loop.specs.Frames.{AllRun, AreDone, AreSigns};
ghost use Rattle.wdf_loop.specs.Layouts.{IsRowOfChains, chain_at};
ghost use Rattle.wdf_loop.specs.Pairs.{ArePairs};
ghost use Rattle.wdf_loop.specs.Runs.{AreShares};

use crate::ascent::rise;
use crate::chain::Chain;
use crate::descent::fall;
use crate::pairs::Pairs;
use crate::share::Share;
use crate::stage_row::StageRow;

/// A frame from the states in the cells and what their parts are fed: the cells come to have its
/// values. The root is the last stage.
///
/// `ALONE` changes nothing in it. It makes two functions of one, each of which is called at one place:
/// so the compiler puts it there, however large it is.
pub(crate) fn frame<const K: u32, const C: usize, const ALONE: bool, R: StageRow<K, C>>(
    shares: &[Share],
    chains: &[Chain],
    top: Chain,
    pairs: Pairs,
    cells: &mut [R],
    root: usize,
)
    requires some { 1 ≤ K }
    requires few { K ≤ 20 }
    requires runs { C ≤ 8 }
    requires stages { length cells.old ≡ root + 1 }
    requires each { length shares.now ≡ root + 1 }
    requires shares { AreShares (2 ^ K) shares.now }
    requires chains { IsRowOfChains root chains.now }
    requires top { chain_at chains.now (length chains.now - 1) ≡ top }
    requires pairs { ArePairs shares.now top.first top.end pairs }
    requires signs { AreSigns chains.now }
    requires run { AllRun C (2 ^ K) root shares.now chains.now (map R.cells cells.old) }
    ensures { AreDone C (2 ^ K) root shares.now chains.now (map R.cells cells.old) (map R.cells cells.new) }
{
    let mut waves = [0; C];
    rise::<K, C, ALONE, R>(shares, chains, top, pairs, cells, root, &mut waves);
    cells[root].turn(shares[root], &mut waves);
    fall::<K, C, R>(shares, chains, top, pairs, cells, root, &mut waves);
}
