// Rows of cells for which a width of the multipliers that is known at run time alone is chosen once a block.
ghost use Rattle.std.specs.Prelude.{◌≡◌, ℕ, ◌+◌, ◌*◌, ◌<◌, ◌≤◌, ◌^◌, length, map};
ghost use Rattle.wdf_loop.specs.Blocks.{AllCanRun, HaveRun};
ghost use Rattle.wdf_loop.specs.Frames.{AreSigns};
ghost use Rattle.wdf_loop.specs.Layouts.{IsRowOfChains, feed_at};
ghost use Rattle.wdf_loop.specs.Parts.{AreWithin};
ghost use Rattle.wdf_loop.specs.Runs.{AreShares};
ghost use Rattle.wdf_loop.specs.Shows.{AreSmallValues};

use crate::cell::Cell;
use crate::chain::Chain;
use crate::feed::Feed;
use crate::lane_cells::LaneCells;
use crate::part::Part;
use crate::share::Share;
use crate::stage_row::RunRow;
use crate::width;

/// The cells of a stage in `C` runs, where the multipliers are counted in units of 2^-k.
pub(crate) trait AnyRow<const C: usize>: RunRow<C> {
    /// A block of frames.
    fn block_of(
        k: u8,
        shares: &[Share],
        chains: &[Chain],
        feeds: &[Feed],
        watched: &[Part],
        rows: &mut [Self],
        root: usize,
        count: usize,
        values: &[[i64; C]],
        waves: &mut [[i64; C]],
    )
        requires some { 1 ≤ k }
        requires few { k ≤ 20 }
        requires runs { C ≤ 8 }
        requires stages { length rows.old ≡ root + 1 }
        requires each { length shares.now ≡ root + 1 }
        requires shares { AreShares (2 ^ k) shares.now }
        requires chains { IsRowOfChains root chains.now }
        requires signs { AreSigns chains.now }
        requires sources { length values.now ≡ count * length feeds.now }
        requires feeds { (i : ℕ) → i < length feeds.now → (feed_at feeds.now i).stage ≤ root }
        requires watched { length waves.old ≡ count * length watched.now }
        requires inside { AreWithin (root + 1) watched.now }
        requires small { AreSmallValues C values.now }
        requires can { AllCanRun C (2 ^ k) root shares.now chains.now feeds.now count (map Self.cells rows.old) values.now }
        ensures { HaveRun C (2 ^ k) root shares.now chains.now feeds.now watched.now count count (map Self.cells rows.old) values.now (map Self.cells rows.new) waves.new };
}

impl<const C: usize> AnyRow<C> for [Cell; C] {
    fn block_of(
        k: u8,
        shares: &[Share],
        chains: &[Chain],
        feeds: &[Feed],
        watched: &[Part],
        rows: &mut [Self],
        root: usize,
        count: usize,
        values: &[[i64; C]],
        waves: &mut [[i64; C]],
    ) {
        width::block_of::<C, [Cell; C]>(
            k, shares, chains, feeds, watched, rows, root, count, values, waves,
        );
    }
}

impl<const N: usize> AnyRow<N> for LaneCells<N> {
    fn block_of(
        k: u8,
        shares: &[Share],
        chains: &[Chain],
        feeds: &[Feed],
        watched: &[Part],
        rows: &mut [Self],
        root: usize,
        count: usize,
        values: &[[i64; N]],
        waves: &mut [[i64; N]],
    ) {
        width::block_of::<N, LaneCells<N>>(
            k, shares, chains, feeds, watched, rows, root, count, values, waves,
        );
    }
}
