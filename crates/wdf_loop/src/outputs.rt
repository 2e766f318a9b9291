// The load waves of runs, each at its run's place in its frame.
ghost use Rattle.std.specs.Prelude.{◌≡◌, ℕ, ◌+◌, ◌*◌, ◌<◌, ◌≤◌, ◌^◌, ◌⊎◌, pos, unsigned_abs, length, slice_index_or};
ghost use Rattle.wdf_law.specs.Elements.{signed};
ghost use Rattle.wdf_loop.specs.Parts.{load_in, watched_in};
ghost use Rattle.wdf_loop.specs.RunCells.{wave_in};

use crate::outlet::Outlet;
use crate::sums::signed;

// Those of a frame, from the place `at` on.
fn give_row<const C: usize>(row: &[i64; C], flip: bool, output: &mut [i64], at: usize)
    requires room { at + C ≤ length output.old }
    requires words { (c : ℕ) → c < C → unsigned_abs (wave_in row.now c) ≤ 2 ^ 60 }
    ensures waves { (c : ℕ) → c < C → slice_index_or output.new (at + c) (pos 0) ≡ signed flip (wave_in row.now c) }
    ensures others { (k : ℕ) → (k < at) ⊎ (at + C ≤ k) → slice_index_or output.new k (pos 0) ≡ slice_index_or output.old k (pos 0) }
{
    for c in 0..C {
        output[at + c] = signed(flip, row[c]);
    }
}

/// Those of the runs from `first` on, of `all` runs, in each of `count` frames. `waves` has `width`
/// rows in each frame, of which the outlet's has its place.
pub(crate) fn give_block<const C: usize>(
    waves: &[[i64; C]],
    width: usize,
    outlet: Outlet,
    count: usize,
    all: usize,
    first: usize,
    output: &mut [i64],
)
    requires runs { C ≤ 8 }
    requires within { first + C ≤ all }
    requires outlet { outlet.place < width }
    requires rows { length waves.now ≡ count * width }
    requires each { length output.old ≡ count * all }
    requires words { (f c : ℕ) → f < count → c < C → unsigned_abs (watched_in width waves.now outlet.place f c) ≤ 2 ^ 60 }
    ensures waves { (f c : ℕ) → f < count → c < C
        → slice_index_or output.new (f * all + (first + c)) (pos 0) ≡ load_in width outlet waves.now f c }
    ensures others { (f run : ℕ) → run < all → (run < first) ⊎ (first + C ≤ run)
        → slice_index_or output.new (f * all + run) (pos 0) ≡ slice_index_or output.old (f * all + run) (pos 0) }
{
    for f in 0..count {
        let row = &waves[f * width + outlet.place];
        give_row::<C>(row, outlet.flip, output, f * all + first);
    }
}
