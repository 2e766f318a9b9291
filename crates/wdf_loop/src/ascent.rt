// The way up all chains, in several runs at once.
ghost use Rattle.std.specs.Prelude.{◌≡◌, ℕ, ◌+◌, ◌-◌, ◌<◌, ◌≤◌, ◌^◌, length, map, unsigned_abs};
ghost use Rattle.wdf_loop.specs.Cells.{bottom};
ghost use Rattle.wdf_loop.specs.Frames.{AllRun, AreSigns, HaveRisen};
ghost use Rattle.wdf_loop.specs.Layouts.{IsRowOfChains, chain_at};
ghost use Rattle.wdf_loop.specs.Pairs.{ArePairs};
ghost use Rattle.wdf_loop.specs.RunCells.{AllCanBegin, wave_in};
ghost use Rattle.wdf_loop.specs.Runs.{AllCanAscend, AreShares, HaveAscended, KeepsOthers, cell_at, row_at};

use crate::chain::Chain;
use crate::pair_passes::climb_by;
use crate::pairs::Pairs;
use crate::passes::climb;
use crate::share::Share;
use crate::stage_row::StageRow;

// What the elements at the bottom of a chain reflect.
#[inline(always)]
fn begin<const K: u32, const C: usize, R: StageRow<K, C>>(
    cells: &[R],
    chain: Chain,
    waves: &mut [i64; C],
)
    requires few { K ≤ 20 }
    requires runs { C ≤ 8 }
    requires bottom { chain.first < length cells.now }
    requires sign { unsigned_abs chain.sign ≤ 1 }
    requires can { AllCanBegin (2 ^ K) C (row_at (map R.cells cells.now) chain.first) }
    ensures { (c : ℕ) → c < C → wave_in waves.new c ≡ bottom chain.sign (cell_at (map R.cells cells.now) chain.first c) }
{
    cells[chain.first as usize].bottom(chain.sign, waves);
}

// Up a chain from the elements at its bottom: `waves` become what its top reflects.
#[inline(always)]
fn ascend<const K: u32, const C: usize, R: StageRow<K, C>>(
    shares: &[Share],
    cells: &mut [R],
    chain: Chain,
    waves: &mut [i64; C],
)
    requires few { K ≤ 20 }
    requires runs { C ≤ 8 }
    requires order { chain.first ≤ chain.end }
    requires bottom { chain.first < length cells.old }
    requires inside { chain.end ≤ length cells.old }
    requires each { length shares.now ≡ length cells.old }
    requires shares { AreShares (2 ^ K) shares.now }
    requires sign { unsigned_abs chain.sign ≤ 1 }
    requires can { AllCanAscend C (2 ^ K) shares.now chain.first chain.end chain.sign (map R.cells cells.old) }
    ensures ascend { HaveAscended C (2 ^ K) shares.now chain.first chain.end chain.sign (map R.cells cells.old) (map R.cells cells.new) waves.new }
    ensures others { KeepsOthers chain.first chain.end (map R.cells cells.old) (map R.cells cells.new) }
{
    begin::<K, C, R>(cells, chain, waves);
    climb::<K, C, R>(
        shares,
        cells,
        chain.first as usize,
        chain.end as usize,
        waves,
    );
}

// The same where the chain has these pairs.
#[inline(always)]
fn ascend_by<const K: u32, const C: usize, R: StageRow<K, C>>(
    shares: &[Share],
    cells: &mut [R],
    chain: Chain,
    pairs: Pairs,
    waves: &mut [i64; C],
)
    requires few { K ≤ 20 }
    requires runs { C ≤ 8 }
    requires order { chain.first ≤ chain.end }
    requires bottom { chain.first < length cells.old }
    requires inside { chain.end ≤ length cells.old }
    requires each { length shares.now ≡ length cells.old }
    requires shares { AreShares (2 ^ K) shares.now }
    requires sign { unsigned_abs chain.sign ≤ 1 }
    requires pairs { ArePairs shares.now chain.first chain.end pairs }
    requires can { AllCanAscend C (2 ^ K) shares.now chain.first chain.end chain.sign (map R.cells cells.old) }
    ensures ascend { HaveAscended C (2 ^ K) shares.now chain.first chain.end chain.sign (map R.cells cells.old) (map R.cells cells.new) waves.new }
    ensures others { KeepsOthers chain.first chain.end (map R.cells cells.old) (map R.cells cells.new) }
{
    begin::<K, C, R>(cells, chain, waves);
    climb_by::<K, C, R>(
        shares,
        cells,
        chain.first as usize,
        chain.end as usize,
        pairs,
        waves,
    );
}

/// Up all chains, each but the last, which is `top` and has these pairs, to the part beside the
/// stage where it hangs: `waves` become what the trees below the root reflect. `ALONE` is the frame's.
pub(crate) fn rise<const K: u32, const C: usize, const ALONE: bool, R: StageRow<K, C>>(
    shares: &[Share],
    chains: &[Chain],
    top: Chain,
    pairs: Pairs,
    cells: &mut [R],
    root: usize,
    waves: &mut [i64; C],
)
    requires few { K ≤ 20 }
    requires runs { C ≤ 8 }
    requires stages { length cells.old ≡ root + 1 }
    requires each { length shares.now ≡ root + 1 }
    requires shares { AreShares (2 ^ K) shares.now }
    requires chains { IsRowOfChains root chains.now }
    requires top { chain_at chains.now (length chains.now - 1) ≡ top }
    requires pairs { ArePairs shares.now top.first top.end pairs }
    requires signs { AreSigns chains.now }
    requires run { AllRun C (2 ^ K) root shares.now chains.now (map R.cells cells.old) }
    ensures { HaveRisen C (2 ^ K) root shares.now chains.now (map R.cells cells.old) (map R.cells cells.new) waves.new }
{
    let last = chains.len() - 1;
    for t in 0..last {
        let chain = chains[t];
        ascend::<K, C, R>(shares, cells, chain, waves);
        cells[chain.to as usize].deliver(waves);
    }
    ascend_by::<K, C, R>(shares, cells, top, pairs, waves);
}
