// A stage of several runs at once: a cell and a wave for each.
ghost use Rattle.std.specs.Prelude.{◌≡◌, ℕ, ◌+◌, ◌<◌, ◌≤◌, ◌^◌, unsigned_abs};
ghost use Rattle.wdf_loop.specs.Cells.{bottom, fed_with, given};
ghost use Rattle.wdf_loop.specs.Parts.{sent_to};
ghost use Rattle.wdf_loop.specs.RunCells.{AllCanBegin, AllCanFall, AllCanRise, Falls, InEach, Rises, Turns, cell_in, wave_in};

use crate::cell::Cell;
use crate::feed::Feed;
use crate::part::Part;
use crate::share::Share;

/// A junction on the way up, the trees below reflecting `waves`, which become what it reflects.
#[inline(always)]
pub(crate) fn rise<const K: u32, const C: usize>(
    row: &mut [Cell; C],
    share: Share,
    waves: &mut [i64; C],
)
    requires few { K ≤ 20 }
    requires whole { share.m + share.n ≡ 2 ^ K }
    requires can { AllCanRise (2 ^ K) C share waves.old row.old }
    ensures { InEach C (Rises (2 ^ K) share) waves.old row.old row.new waves.new }
{
    for c in 0..C {
        waves[c] = row[c].rise::<K>(share, waves[c]);
    }
}

/// The root, the trees below reflecting `waves`, which become what these are sent.
#[inline(always)]
pub(crate) fn turn<const K: u32, const C: usize>(
    row: &mut [Cell; C],
    share: Share,
    waves: &mut [i64; C],
)
    requires few { K ≤ 20 }
    requires whole { share.m + share.n ≡ 2 ^ K }
    requires can { AllCanRise (2 ^ K) C share waves.old row.old }
    ensures { InEach C (Turns (2 ^ K) share) waves.old row.old row.new waves.new }
{
    for c in 0..C {
        waves[c] = row[c].turn::<K>(share, waves[c]);
    }
}

/// A junction on the way down, which is sent `waves`; they become what the trees below are sent.
#[inline(always)]
pub(crate) fn fall<const K: u32, const C: usize>(
    row: &mut [Cell; C],
    share: Share,
    waves: &mut [i64; C],
)
    requires some { 1 ≤ K }
    requires few { K ≤ 20 }
    requires whole { share.m + share.n ≡ 2 ^ K }
    requires can { AllCanFall (2 ^ K) C share waves.old row.old }
    ensures { InEach C (Falls (2 ^ K) share) waves.old row.old row.new waves.new }
{
    for c in 0..C {
        waves[c] = row[c].fall::<K>(share, waves[c]);
    }
}

/// What the elements below the row's stage reflect, whose kind's sign is this.
#[inline(always)]
pub(crate) fn bottom<const K: u32, const C: usize>(row: &[Cell; C], sign: i64, waves: &mut [i64; C])
    requires few { K ≤ 20 }
    requires sign { unsigned_abs sign ≤ 1 }
    requires can { AllCanBegin (2 ^ K) C row.now }
    ensures { (c : ℕ) → c < C → wave_in waves.new c ≡ bottom sign (cell_in row.now c) }
{
    for c in 0..C {
        waves[c] = row[c].bottom::<K>(sign);
    }
}

/// Feeds the parts beside the row's stage with `waves`.
#[inline(always)]
pub(crate) fn deliver<const C: usize>(row: &mut [Cell; C], waves: &[i64; C])
    ensures { (c : ℕ) → c < C → cell_in row.new c ≡ fed_with (wave_in waves.now c) (cell_in row.old c) }
{
    for c in 0..C {
        row[c].fed = waves[c];
    }
}

/// What these parts are sent.
#[inline(always)]
pub(crate) fn collect<const C: usize>(row: &[Cell; C], waves: &mut [i64; C])
    ensures { (c : ℕ) → c < C → wave_in waves.new c ≡ (cell_in row.now c).down }
{
    for c in 0..C {
        waves[c] = row[c].down;
    }
}

/// Feeds a source of the row's stage with its values.
#[inline(always)]
pub(crate) fn give<const C: usize>(row: &mut [Cell; C], feed: Feed, values: &[i64; C])
    requires { (c : ℕ) → c < C → unsigned_abs (wave_in values.now c) ≤ 2 ^ 60 }
    ensures { (c : ℕ) → c < C → cell_in row.new c ≡ given feed (wave_in values.now c) (cell_in row.old c) }
{
    for c in 0..C {
        row[c].give(feed, values[c]);
    }
}

/// What a part of the row's stage is sent.
#[inline(always)]
pub(crate) fn sent<const C: usize>(row: &[Cell; C], part: Part, waves: &mut [i64; C])
    ensures { (c : ℕ) → c < C → wave_in waves.new c ≡ sent_to part (cell_in row.now c) }
{
    for c in 0..C {
        waves[c] = row[c].sent(part);
    }
}
