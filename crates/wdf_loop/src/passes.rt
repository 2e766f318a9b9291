// The stages of a chain on the way up and down, in several runs at once. Which kinds they have is found out at each
// of them; the code for that stands once, and is called where there are such stages.
ghost use Rattle.std.specs.Prelude.{◌≡◌, ◌≤◌, ◌^◌, length, map};
ghost use Rattle.wdf_loop.specs.Runs.{AllCanClimb, AllCanDescend, AreShares, HaveClimbed, HaveDescended, KeepsOthers};

use crate::share::Share;
use crate::stage_row::StageRow;

// The stages `first..end` of a chain on the way up.
#[inline(never)]
fn climb_stages<const K: u32, const C: usize, R: StageRow<K, C>>(
    shares: &[Share],
    cells: &mut [R],
    first: usize,
    end: usize,
    waves: &mut [i64; C],
)
    requires few { K ≤ 20 }
    requires runs { C ≤ 8 }
    requires order { first ≤ end }
    requires inside { end ≤ length cells.old }
    requires each { length shares.now ≡ length cells.old }
    requires shares { AreShares (2 ^ K) shares.now }
    requires can { AllCanClimb C (2 ^ K) shares.now first end (map R.cells cells.old) waves.old }
    ensures climb { HaveClimbed C (2 ^ K) shares.now first end end (map R.cells cells.old) waves.old (map R.cells cells.new) waves.new }
    ensures others { KeepsOthers first end (map R.cells cells.old) (map R.cells cells.new) }
{
    // In a place of their own the waves need not be stored at each stage.
    let mut held = *waves;
    for j in first..end {
        cells[j].rise(shares[j], &mut held);
    }
    *waves = held;
}

/// The stages `first..end` of a chain on the way up: `waves`, which the elements at its bottom
/// reflect, become what its top reflects.
#[inline(always)]
pub(crate) fn climb<const K: u32, const C: usize, R: StageRow<K, C>>(
    shares: &[Share],
    cells: &mut [R],
    first: usize,
    end: usize,
    waves: &mut [i64; C],
)
    requires few { K ≤ 20 }
    requires runs { C ≤ 8 }
    requires order { first ≤ end }
    requires inside { end ≤ length cells.old }
    requires each { length shares.now ≡ length cells.old }
    requires shares { AreShares (2 ^ K) shares.now }
    requires can { AllCanClimb C (2 ^ K) shares.now first end (map R.cells cells.old) waves.old }
    ensures climb { HaveClimbed C (2 ^ K) shares.now first end end (map R.cells cells.old) waves.old (map R.cells cells.new) waves.new }
    ensures others { KeepsOthers first end (map R.cells cells.old) (map R.cells cells.new) }
{
    if first < end {
        // The call has a copy, so that the waves stay in registers where there is none.
        let mut held = *waves;
        climb_stages::<K, C, R>(shares, cells, first, end, &mut held);
        *waves = held;
    }
}

// The stages `first..end` of a chain on the way down.
#[inline(never)]
fn descend_stages<const K: u32, const C: usize, R: StageRow<K, C>>(
    shares: &[Share],
    cells: &mut [R],
    first: usize,
    end: usize,
    waves: &mut [i64; C],
)
    requires some { 1 ≤ K }
    requires few { K ≤ 20 }
    requires runs { C ≤ 8 }
    requires order { first ≤ end }
    requires inside { end ≤ length cells.old }
    requires each { length shares.now ≡ length cells.old }
    requires shares { AreShares (2 ^ K) shares.now }
    requires can { AllCanDescend C (2 ^ K) shares.now first end (map R.cells cells.old) waves.old }
    ensures descend { HaveDescended C (2 ^ K) shares.now first end first (map R.cells cells.old) waves.old (map R.cells cells.new) waves.new }
    ensures others { KeepsOthers first end (map R.cells cells.old) (map R.cells cells.new) }
{
    let mut held = *waves;
    for done in 0..end - first {
        let j = end - 1 - done;
        cells[j].fall(shares[j], &mut held);
    }
    *waves = held;
}

/// They on the way down: `waves`, which the top is sent, become what the elements at the bottom
/// are sent.
#[inline(always)]
pub(crate) fn descend<const K: u32, const C: usize, R: StageRow<K, C>>(
    shares: &[Share],
    cells: &mut [R],
    first: usize,
    end: usize,
    waves: &mut [i64; C],
)
    requires some { 1 ≤ K }
    requires few { K ≤ 20 }
    requires runs { C ≤ 8 }
    requires order { first ≤ end }
    requires inside { end ≤ length cells.old }
    requires each { length shares.now ≡ length cells.old }
    requires shares { AreShares (2 ^ K) shares.now }
    requires can { AllCanDescend C (2 ^ K) shares.now first end (map R.cells cells.old) waves.old }
    ensures descend { HaveDescended C (2 ^ K) shares.now first end first (map R.cells cells.old) waves.old (map R.cells cells.new) waves.new }
    ensures others { KeepsOthers first end (map R.cells cells.old) (map R.cells cells.new) }
{
    if first < end {
        let mut held = *waves;
        descend_stages::<K, C, R>(shares, cells, first, end, &mut held);
        *waves = held;
    }
}
