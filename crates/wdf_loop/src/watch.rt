// What elements are sent, frame after frame.
ghost use Rattle.std.specs.Prelude.{◌≡◌, ℕ, ◌+◌, ◌-◌, ◌<◌, ◌≤◌, length, map, slice_index_or, []};
ghost use Rattle.wdf_loop.specs.Parts.{AreWithin, part_at, sent_last};
ghost use Rattle.wdf_loop.specs.RunCells.{wave_in};

use crate::part::Part;
use crate::stage_row::RunRow;

/// The part with this number, or any one where there is none.
pub(crate) fn part_of(parts: &[Part], i: usize) -> Part
    ensures { result ≡ part_at parts.now i }
{
    if i < parts.len() {
        parts[i]
    } else {
        Part {
            stage: 0,
            beside: false,
        }
    }
}

/// What the parts are sent, a row for each, from the row `from` on. `one` and `other` are the first
/// and the last of the parts, which may be the same one.
#[inline(always)]
pub(crate) fn watch<const C: usize, R: RunRow<C>>(
    parts: &[Part],
    one: Part,
    other: Part,
    cells: &[R],
    rows: &mut [[i64; C]],
    from: usize,
)
    requires runs { C ≤ 8 }
    requires one { one ≡ part_at parts.now 0 }
    requires other { other ≡ part_at parts.now (length parts.now - 1) }
    requires inside { AreWithin (length cells.now) parts.now }
    requires room { from + length parts.now ≤ length rows.old }
    ensures sent { (i c : ℕ) → i < length parts.now → c < C → wave_in (slice_index_or rows.new (from + i) []) c ≡ sent_last parts.now (map R.cells cells.now) c i }
    ensures others { (k : ℕ) → k < from → slice_index_or rows.new k [] ≡ slice_index_or rows.old k [] }
{
    if parts.is_empty() {
        return;
    }
    let last = parts.len() - 1;
    cells[one.stage as usize].sent(one, &mut rows[from]);
    for i in 1..last {
        let part = parts[i];
        cells[part.stage as usize].sent(part, &mut rows[from + i]);
    }
    cells[other.stage as usize].sent(other, &mut rows[from + last]);
}
