// Frame after frame of several runs at once.
ghost use Rattle.std.specs.Prelude.{◌≡◌, ℕ, ◌+◌, ◌*◌, ◌<◌, ◌≤◌, ◌^◌, length, map};
ghost use Rattle.wdf_loop.specs.Blocks.{AllCanRun, HaveRun};
ghost use Rattle.wdf_loop.specs.Frames.{AreSigns};
ghost use Rattle.wdf_loop.specs.Layouts.{IsRowOfChains, feed_at};
ghost use Rattle.wdf_loop.specs.Parts.{AreWithin};
ghost use Rattle.wdf_loop.specs.Runs.{AreShares};
ghost use Rattle.wdf_loop.specs.Shows.{AreSmallValues};

use crate::chain::Chain;
use crate::feed::Feed;
use crate::pairs::pairs_of;
use crate::part::Part;
use crate::share::Share;
use crate::stage_row::StageRow;
use crate::step::step;
use crate::watch::{part_of, watch};

// The same, however many chains, sources and parts there are. Where the caller has their numbers as constants of the
// code, the loops over them disappear.
#[inline(always)]
fn frames<const K: u32, const C: usize, const ALONE: bool, R: StageRow<K, C>>(
    shares: &[Share],
    chains: &[Chain],
    feeds: &[Feed],
    watched: &[Part],
    cells: &mut [R],
    root: usize,
    count: usize,
    values: &[[i64; C]],
    waves: &mut [[i64; C]],
)
    requires some { 1 ≤ K }
    requires few { K ≤ 20 }
    requires runs { C ≤ 8 }
    requires stages { length cells.old ≡ root + 1 }
    requires each { length shares.now ≡ root + 1 }
    requires shares { AreShares (2 ^ K) shares.now }
    requires chains { IsRowOfChains root chains.now }
    requires signs { AreSigns chains.now }
    requires sources { length values.now ≡ count * length feeds.now }
    requires feeds { (i : ℕ) → i < length feeds.now → (feed_at feeds.now i).stage ≤ root }
    requires watched { length waves.old ≡ count * length watched.now }
    requires inside { AreWithin (root + 1) watched.now }
    requires small { AreSmallValues C values.now }
    requires can { AllCanRun C (2 ^ K) root shares.now chains.now feeds.now count (map R.cells cells.old) values.now }
    ensures { HaveRun C (2 ^ K) root shares.now chains.now feeds.now watched.now count count (map R.cells cells.old) values.now (map R.cells cells.new) waves.new }
{
    let sources = feeds.len();
    let parts = watched.len();
    // What stays the same is taken out of the slices once, since each store may change these.
    let top = chains[chains.len() - 1];
    let pairs = pairs_of(shares, top.first as usize, top.end as usize);
    let one = part_of(watched, 0);
    let other = part_of(watched, parts.saturating_sub(1));
    for f in 0..count {
        let at = f * sources;
        step::<K, C, ALONE, R>(
            shares,
            chains,
            top,
            pairs,
            feeds,
            cells,
            root,
            &values[at..at + sources],
        );
        watch::<C, R>(watched, one, other, cells, waves, f * parts);
    }
}

/// The next `count` frames. `values` has a row for each source of each frame, source 0 first, frame
/// after frame; `waves` comes to have one for each watched part of each frame, with what it is sent.
/// The root is the last stage.
pub(crate) fn block<const K: u32, const C: usize, R: StageRow<K, C>>(
    shares: &[Share],
    chains: &[Chain],
    feeds: &[Feed],
    watched: &[Part],
    cells: &mut [R],
    root: usize,
    count: usize,
    values: &[[i64; C]],
    waves: &mut [[i64; C]],
)
    requires some { 1 ≤ K }
    requires few { K ≤ 20 }
    requires runs { C ≤ 8 }
    requires stages { length cells.old ≡ root + 1 }
    requires each { length shares.now ≡ root + 1 }
    requires shares { AreShares (2 ^ K) shares.now }
    requires chains { IsRowOfChains root chains.now }
    requires signs { AreSigns chains.now }
    requires sources { length values.now ≡ count * length feeds.now }
    requires feeds { (i : ℕ) → i < length feeds.now → (feed_at feeds.now i).stage ≤ root }
    requires watched { length waves.old ≡ count * length watched.now }
    requires inside { AreWithin (root + 1) watched.now }
    requires small { AreSmallValues C values.now }
    requires can { AllCanRun C (2 ^ K) root shares.now chains.now feeds.now count (map R.cells cells.old) values.now }
    ensures { HaveRun C (2 ^ K) root shares.now chains.now feeds.now watched.now count count (map R.cells cells.old) values.now (map R.cells cells.new) waves.new }
{
    if chains.len() == 1 && feeds.len() == 1 && watched.len() == 2 {
        frames::<K, C, true, R>(
            shares,
            &chains[..1],
            &feeds[..1],
            &watched[..2],
            cells,
            root,
            count,
            values,
            waves,
        );
    } else {
        frames::<K, C, false, R>(
            shares, chains, feeds, watched, cells, root, count, values, waves,
        );
    }
}
