// The way down all chains, in several runs at once.
ghost use Rattle.std.specs.Prelude.{◌≡◌, ◌+◌, ◌-◌, ◌≤◌, ◌^◌, length, map};
ghost use Rattle.wdf_loop.specs.Frames.{AllHaveTurned, HaveFallenTo};
ghost use Rattle.wdf_loop.specs.Layouts.{IsRowOfChains, chain_at};
ghost use Rattle.wdf_loop.specs.Pairs.{ArePairs};
ghost use Rattle.wdf_loop.specs.Runs.{AreShares};

use crate::chain::Chain;
use crate::pair_passes::descend_by;
use crate::pairs::Pairs;
use crate::passes::descend;
use crate::share::Share;
use crate::stage_row::StageRow;

/// Down all chains: the last, which is `top` and has these pairs, from the root, which sends
/// `waves`, and each other from the part beside the stage where it hangs.
#[inline(always)]
pub(crate) fn fall<const K: u32, const C: usize, R: StageRow<K, C>>(
    shares: &[Share],
    chains: &[Chain],
    top: Chain,
    pairs: Pairs,
    cells: &mut [R],
    root: usize,
    waves: &mut [i64; C],
)
    requires some { 1 ≤ K }
    requires few { K ≤ 20 }
    requires runs { C ≤ 8 }
    requires stages { length cells.old ≡ root + 1 }
    requires each { length shares.now ≡ root + 1 }
    requires shares { AreShares (2 ^ K) shares.now }
    requires chains { IsRowOfChains root chains.now }
    requires top { chain_at chains.now (length chains.now - 1) ≡ top }
    requires pairs { ArePairs shares.now top.first top.end pairs }
    requires turned { AllHaveTurned C (2 ^ K) root shares.now chains.now (map R.cells cells.old) waves.old }
    ensures { HaveFallenTo C (2 ^ K) root shares.now chains.now 0 (map R.cells cells.old) waves.old (map R.cells cells.new) }
{
    let last = chains.len() - 1;
    descend_by::<K, C, R>(
        shares,
        cells,
        top.first as usize,
        top.end as usize,
        pairs,
        waves,
    );
    for done in 0..last {
        let chain = chains[last - 1 - done];
        cells[chain.to as usize].collect(waves);
        descend::<K, C, R>(
            shares,
            cells,
            chain.first as usize,
            chain.end as usize,
            waves,
        );
    }
}
