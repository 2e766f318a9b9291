// The width of the multipliers as a constant of the code, chosen once a block.
ghost use Rattle.std.specs.Prelude.{◌≡◌, ℕ, ◌+◌, ◌*◌, ◌<◌, ◌≤◌, ◌^◌, length, map};
ghost use Rattle.wdf_loop.specs.Blocks.{AllCanRun, HaveRun};
ghost use Rattle.wdf_loop.specs.Frames.{AreSigns};
ghost use Rattle.wdf_loop.specs.Layouts.{IsRowOfChains, feed_at};
ghost use Rattle.wdf_loop.specs.Parts.{AreWithin};
ghost use Rattle.wdf_loop.specs.Runs.{AreShares};
ghost use Rattle.wdf_loop.specs.Shows.{AreSmallValues};

use crate::block::block;
use crate::chain::Chain;
use crate::feed::Feed;
use crate::part::Part;
use crate::share::Share;
use crate::stage_row::{EveryRow, StageRow};

// The same with the width as a constant.
fn block_at<const K: u32, const C: usize, R: StageRow<K, C>>(
    k: u8,
    shares: &[Share],
    chains: &[Chain],
    feeds: &[Feed],
    watched: &[Part],
    cells: &mut [R],
    root: usize,
    count: usize,
    values: &[[i64; C]],
    waves: &mut [[i64; C]],
)
    requires width { k ≡ K }
    requires some { 1 ≤ k }
    requires few { k ≤ 20 }
    requires runs { C ≤ 8 }
    requires stages { length cells.old ≡ root + 1 }
    requires each { length shares.now ≡ root + 1 }
    requires shares { AreShares (2 ^ k) shares.now }
    requires chains { IsRowOfChains root chains.now }
    requires signs { AreSigns chains.now }
    requires sources { length values.now ≡ count * length feeds.now }
    requires feeds { (i : ℕ) → i < length feeds.now → (feed_at feeds.now i).stage ≤ root }
    requires watched { length waves.old ≡ count * length watched.now }
    requires inside { AreWithin (root + 1) watched.now }
    requires small { AreSmallValues C values.now }
    requires can { AllCanRun C (2 ^ k) root shares.now chains.now feeds.now count (map R.cells cells.old) values.now }
    ensures { HaveRun C (2 ^ k) root shares.now chains.now feeds.now watched.now count count (map R.cells cells.old) values.now (map R.cells cells.new) waves.new }
{
    block::<K, C, R>(
        shares, chains, feeds, watched, cells, root, count, values, waves,
    );
}

/// A block of frames where the multipliers are counted in units of 2^-k.
pub(crate) fn block_of<const C: usize, R: EveryRow<C>>(
    k: u8,
    shares: &[Share],
    chains: &[Chain],
    feeds: &[Feed],
    watched: &[Part],
    cells: &mut [R],
    root: usize,
    count: usize,
    values: &[[i64; C]],
    waves: &mut [[i64; C]],
)
    requires some { 1 ≤ k }
    requires few { k ≤ 20 }
    requires runs { C ≤ 8 }
    requires stages { length cells.old ≡ root + 1 }
    requires each { length shares.now ≡ root + 1 }
    requires shares { AreShares (2 ^ k) shares.now }
    requires chains { IsRowOfChains root chains.now }
    requires signs { AreSigns chains.now }
    requires sources { length values.now ≡ count * length feeds.now }
    requires feeds { (i : ℕ) → i < length feeds.now → (feed_at feeds.now i).stage ≤ root }
    requires watched { length waves.old ≡ count * length watched.now }
    requires inside { AreWithin (root + 1) watched.now }
    requires small { AreSmallValues C values.now }
    requires can { AllCanRun C (2 ^ k) root shares.now chains.now feeds.now count (map R.cells cells.old) values.now }
    ensures { HaveRun C (2 ^ k) root shares.now chains.now feeds.now watched.now count count (map R.cells cells.old) values.now (map R.cells cells.new) waves.new }
{
    match k {
        1 => block_at::<1, C, R>(
            k, shares, chains, feeds, watched, cells, root, count, values, waves,
        ),
        2 => block_at::<2, C, R>(
            k, shares, chains, feeds, watched, cells, root, count, values, waves,
        ),
        3 => block_at::<3, C, R>(
            k, shares, chains, feeds, watched, cells, root, count, values, waves,
        ),
        4 => block_at::<4, C, R>(
            k, shares, chains, feeds, watched, cells, root, count, values, waves,
        ),
        5 => block_at::<5, C, R>(
            k, shares, chains, feeds, watched, cells, root, count, values, waves,
        ),
        6 => block_at::<6, C, R>(
            k, shares, chains, feeds, watched, cells, root, count, values, waves,
        ),
        7 => block_at::<7, C, R>(
            k, shares, chains, feeds, watched, cells, root, count, values, waves,
        ),
        8 => block_at::<8, C, R>(
            k, shares, chains, feeds, watched, cells, root, count, values, waves,
        ),
        9 => block_at::<9, C, R>(
            k, shares, chains, feeds, watched, cells, root, count, values, waves,
        ),
        10 => block_at::<10, C, R>(
            k, shares, chains, feeds, watched, cells, root, count, values, waves,
        ),
        11 => block_at::<11, C, R>(
            k, shares, chains, feeds, watched, cells, root, count, values, waves,
        ),
        12 => block_at::<12, C, R>(
            k, shares, chains, feeds, watched, cells, root, count, values, waves,
        ),
        13 => block_at::<13, C, R>(
            k, shares, chains, feeds, watched, cells, root, count, values, waves,
        ),
        14 => block_at::<14, C, R>(
            k, shares, chains, feeds, watched, cells, root, count, values, waves,
        ),
        15 => block_at::<15, C, R>(
            k, shares, chains, feeds, watched, cells, root, count, values, waves,
        ),
        16 => block_at::<16, C, R>(
            k, shares, chains, feeds, watched, cells, root, count, values, waves,
        ),
        17 => block_at::<17, C, R>(
            k, shares, chains, feeds, watched, cells, root, count, values, waves,
        ),
        18 => block_at::<18, C, R>(
            k, shares, chains, feeds, watched, cells, root, count, values, waves,
        ),
        19 => block_at::<19, C, R>(
            k, shares, chains, feeds, watched, cells, root, count, values, waves,
        ),
        _ => block_at::<20, C, R>(
            k, shares, chains, feeds, watched, cells, root, count, values, waves,
        ),
    }
}
