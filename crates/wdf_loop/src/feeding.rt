// The sources' values of a frame.
ghost use Rattle.std.specs.Prelude.{◌≡◌, ℕ, ◌<◌, ◌≤◌, length, map};
ghost use Rattle.wdf_loop.specs.Layouts.{feed_at};
ghost use Rattle.wdf_loop.specs.Shows.{HaveBeenFed, AreSmallValues};

use crate::feed::Feed;
use crate::stage_row::RunRow;

/// Feeds each source with its values, source 0 first.
#[inline(always)]
pub(crate) fn feed<const C: usize, R: RunRow<C>>(
    feeds: &[Feed],
    cells: &mut [R],
    values: &[[i64; C]],
)
    requires runs { C ≤ 8 }
    requires each { length values.now ≡ length feeds.now }
    requires stages { (i : ℕ) → i < length feeds.now → (feed_at feeds.now i).stage < length cells.old }
    requires small { AreSmallValues C values.now }
    ensures { HaveBeenFed C feeds.now values.now (map R.cells cells.old) (map R.cells cells.new) }
{
    for done in 0..feeds.len() {
        let i = feeds.len() - 1 - done;
        cells[feeds[i].stage as usize].give(feeds[i], &values[i]);
    }
}
