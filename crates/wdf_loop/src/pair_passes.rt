// Pairs of stages on the way up and down, in several runs at once. Which kinds they have, and with which sign the
// parts beside reflect, are constants of the code, so that no stage makes a choice.
ghost use Rattle.std.specs.Prelude.{◌≡◌, ◌+◌, ◌*◌, ◌<◌, ◌≤◌, ◌^◌, length, map, unsigned_abs};
ghost use Rattle.wdf_loop.specs.Layouts.{share_at};
ghost use Rattle.wdf_loop.specs.Pairs.{ArePairs, HasPairs, IsLone, IsOfKind, IsPairAt};
ghost use Rattle.wdf_loop.specs.Runs.{AllCanClimb, AllCanDescend, AreShares, HaveClimbed, HaveDescended, KeepsOthers};

use crate::pairs::Pairs;
use crate::passes::{climb, descend};
use crate::share::Share;
use crate::stage_row::StageRow;

// The share, of which this much is known.
#[inline(always)]
fn known(share: Share, parallel: bool, sign: i64) -> Share
    requires { IsOfKind parallel sign share }
    ensures { result ≡ share }
{
    Share {
        parallel,
        sign,
        ..share
    }
}

// A stage on the way up, of which this much is known.
#[inline(always)]
fn climb_one<const K: u32, const C: usize, R: StageRow<K, C>>(
    shares: &[Share],
    cells: &mut [R],
    j: usize,
    parallel: bool,
    sign: i64,
    waves: &mut [i64; C],
)
    requires few { K ≤ 20 }
    requires runs { C ≤ 8 }
    requires inside { j < length cells.old }
    requires each { length shares.now ≡ length cells.old }
    requires shares { AreShares (2 ^ K) shares.now }
    requires kind { IsOfKind parallel sign (share_at shares.now j) }
    requires can { AllCanClimb C (2 ^ K) shares.now j (j + 1) (map R.cells cells.old) waves.old }
    ensures climb { HaveClimbed C (2 ^ K) shares.now j (j + 1) (j + 1) (map R.cells cells.old) waves.old (map R.cells cells.new) waves.new }
    ensures others { KeepsOthers j (j + 1) (map R.cells cells.old) (map R.cells cells.new) }
{
    cells[j].rise(known(shares[j], parallel, sign), waves);
}

// A pair on the way up.
#[inline(always)]
fn climb_pair<const K: u32, const C: usize, R: StageRow<K, C>>(
    shares: &[Share],
    cells: &mut [R],
    j: usize,
    sign: i64,
    waves: &mut [i64; C],
)
    requires few { K ≤ 20 }
    requires runs { C ≤ 8 }
    requires inside { j + 2 ≤ length cells.old }
    requires each { length shares.now ≡ length cells.old }
    requires shares { AreShares (2 ^ K) shares.now }
    requires size { unsigned_abs sign ≤ 1 }
    requires pair { IsPairAt shares.now sign j }
    requires can { AllCanClimb C (2 ^ K) shares.now j (j + 2) (map R.cells cells.old) waves.old }
    ensures climb { HaveClimbed C (2 ^ K) shares.now j (j + 2) (j + 2) (map R.cells cells.old) waves.old (map R.cells cells.new) waves.new }
    ensures others { KeepsOthers j (j + 2) (map R.cells cells.old) (map R.cells cells.new) }
{
    climb_one::<K, C, R>(shares, cells, j, false, sign, waves);
    climb_one::<K, C, R>(shares, cells, j + 1, true, -sign, waves);
}

// `count` pairs on the way up.
#[inline(always)]
fn climb_pairs<const K: u32, const C: usize, R: StageRow<K, C>>(
    shares: &[Share],
    cells: &mut [R],
    start: usize,
    count: usize,
    sign: i64,
    waves: &mut [i64; C],
)
    requires few { K ≤ 20 }
    requires runs { C ≤ 8 }
    requires inside { start + 2 * count ≤ length cells.old }
    requires each { length shares.now ≡ length cells.old }
    requires shares { AreShares (2 ^ K) shares.now }
    requires size { unsigned_abs sign ≤ 1 }
    requires pairs { HasPairs shares.now sign start count }
    requires can { AllCanClimb C (2 ^ K) shares.now start (start + 2 * count) (map R.cells cells.old) waves.old }
    ensures climb { HaveClimbed C (2 ^ K) shares.now start (start + 2 * count) (start + 2 * count) (map R.cells cells.old) waves.old (map R.cells cells.new) waves.new }
    ensures others { KeepsOthers start (start + 2 * count) (map R.cells cells.old) (map R.cells cells.new) }
{
    // In a place of their own the waves need not be stored at each stage.
    let mut held = *waves;
    for i in 0..count {
        climb_pair::<K, C, R>(shares, cells, start + 2 * i, sign, &mut held);
    }
    *waves = held;
}

// The parallel junction in front of the stage `start`, where there is one, on the way up.
#[inline(always)]
fn climb_lone<const K: u32, const C: usize, R: StageRow<K, C>>(
    shares: &[Share],
    cells: &mut [R],
    low: usize,
    start: usize,
    waves: &mut [i64; C],
)
    requires few { K ≤ 20 }
    requires runs { C ≤ 8 }
    requires inside { start ≤ length cells.old }
    requires each { length shares.now ≡ length cells.old }
    requires shares { AreShares (2 ^ K) shares.now }
    requires lone { IsLone shares.now low start }
    requires can { AllCanClimb C (2 ^ K) shares.now low start (map R.cells cells.old) waves.old }
    ensures climb { HaveClimbed C (2 ^ K) shares.now low start start (map R.cells cells.old) waves.old (map R.cells cells.new) waves.new }
    ensures others { KeepsOthers low start (map R.cells cells.old) (map R.cells cells.new) }
{
    if low < start {
        climb_one::<K, C, R>(shares, cells, low, true, shares[low].sign, waves);
    }
}

// The stages that alternate on the way up, with this sign.
#[inline(always)]
fn climb_known<const K: u32, const C: usize, R: StageRow<K, C>>(
    shares: &[Share],
    cells: &mut [R],
    low: usize,
    start: usize,
    count: usize,
    sign: i64,
    waves: &mut [i64; C],
)
    requires few { K ≤ 20 }
    requires runs { C ≤ 8 }
    requires inside { start + 2 * count ≤ length cells.old }
    requires each { length shares.now ≡ length cells.old }
    requires shares { AreShares (2 ^ K) shares.now }
    requires size { unsigned_abs sign ≤ 1 }
    requires lone { IsLone shares.now low start }
    requires pairs { HasPairs shares.now sign start count }
    requires can { AllCanClimb C (2 ^ K) shares.now low (start + 2 * count) (map R.cells cells.old) waves.old }
    ensures climb { HaveClimbed C (2 ^ K) shares.now low (start + 2 * count) (start + 2 * count) (map R.cells cells.old) waves.old (map R.cells cells.new) waves.new }
    ensures others { KeepsOthers low (start + 2 * count) (map R.cells cells.old) (map R.cells cells.new) }
{
    climb_lone::<K, C, R>(shares, cells, low, start, waves);
    climb_pairs::<K, C, R>(shares, cells, start, count, sign, waves);
}

// They, the sign chosen once for all of them.
#[inline(always)]
fn climb_alternating<const K: u32, const C: usize, R: StageRow<K, C>>(
    shares: &[Share],
    cells: &mut [R],
    pairs: Pairs,
    waves: &mut [i64; C],
)
    requires few { K ≤ 20 }
    requires runs { C ≤ 8 }
    requires inside { pairs.start + 2 * pairs.count ≤ length cells.old }
    requires each { length shares.now ≡ length cells.old }
    requires shares { AreShares (2 ^ K) shares.now }
    requires size { unsigned_abs pairs.sign ≡ 1 }
    requires lone { IsLone shares.now pairs.low pairs.start }
    requires pairs { HasPairs shares.now pairs.sign pairs.start pairs.count }
    requires can { AllCanClimb C (2 ^ K) shares.now pairs.low (pairs.start + 2 * pairs.count) (map R.cells cells.old) waves.old }
    ensures climb { HaveClimbed C (2 ^ K) shares.now pairs.low (pairs.start + 2 * pairs.count) (pairs.start + 2 * pairs.count) (map R.cells cells.old) waves.old (map R.cells cells.new) waves.new }
    ensures others { KeepsOthers pairs.low (pairs.start + 2 * pairs.count) (map R.cells cells.old) (map R.cells cells.new) }
{
    let Pairs {
        low,
        start,
        count,
        ..
    } = pairs;
    if pairs.sign < 0 {
        climb_known::<K, C, R>(shares, cells, low, start, count, -1, waves);
    } else {
        climb_known::<K, C, R>(shares, cells, low, start, count, 1, waves);
    }
}

/// The stages `first..end` of a chain on the way up, among them these pairs: `waves`, which the
/// elements at its bottom reflect, become what its top reflects.
#[inline(always)]
pub(crate) fn climb_by<const K: u32, const C: usize, R: StageRow<K, C>>(
    shares: &[Share],
    cells: &mut [R],
    first: usize,
    end: usize,
    pairs: Pairs,
    waves: &mut [i64; C],
)
    requires few { K ≤ 20 }
    requires runs { C ≤ 8 }
    requires order { first ≤ end }
    requires inside { end ≤ length cells.old }
    requires each { length shares.now ≡ length cells.old }
    requires shares { AreShares (2 ^ K) shares.now }
    requires pairs { ArePairs shares.now first end pairs }
    requires can { AllCanClimb C (2 ^ K) shares.now first end (map R.cells cells.old) waves.old }
    ensures climb { HaveClimbed C (2 ^ K) shares.now first end end (map R.cells cells.old) waves.old (map R.cells cells.new) waves.new }
    ensures others { KeepsOthers first end (map R.cells cells.old) (map R.cells cells.new) }
{
    climb::<K, C, R>(shares, cells, first, pairs.low, waves);
    climb_alternating::<K, C, R>(shares, cells, pairs, waves);
    climb::<K, C, R>(shares, cells, pairs.start + 2 * pairs.count, end, waves);
}

// A stage on the way down, of which this much is known.
#[inline(always)]
fn descend_one<const K: u32, const C: usize, R: StageRow<K, C>>(
    shares: &[Share],
    cells: &mut [R],
    j: usize,
    parallel: bool,
    sign: i64,
    waves: &mut [i64; C],
)
    requires some { 1 ≤ K }
    requires few { K ≤ 20 }
    requires runs { C ≤ 8 }
    requires inside { j < length cells.old }
    requires each { length shares.now ≡ length cells.old }
    requires shares { AreShares (2 ^ K) shares.now }
    requires kind { IsOfKind parallel sign (share_at shares.now j) }
    requires can { AllCanDescend C (2 ^ K) shares.now j (j + 1) (map R.cells cells.old) waves.old }
    ensures descend { HaveDescended C (2 ^ K) shares.now j (j + 1) j (map R.cells cells.old) waves.old (map R.cells cells.new) waves.new }
    ensures others { KeepsOthers j (j + 1) (map R.cells cells.old) (map R.cells cells.new) }
{
    cells[j].fall(known(shares[j], parallel, sign), waves);
}

// A pair on the way down.
#[inline(always)]
fn descend_pair<const K: u32, const C: usize, R: StageRow<K, C>>(
    shares: &[Share],
    cells: &mut [R],
    j: usize,
    sign: i64,
    waves: &mut [i64; C],
)
    requires some { 1 ≤ K }
    requires few { K ≤ 20 }
    requires runs { C ≤ 8 }
    requires inside { j + 2 ≤ length cells.old }
    requires each { length shares.now ≡ length cells.old }
    requires shares { AreShares (2 ^ K) shares.now }
    requires size { unsigned_abs sign ≤ 1 }
    requires pair { IsPairAt shares.now sign j }
    requires can { AllCanDescend C (2 ^ K) shares.now j (j + 2) (map R.cells cells.old) waves.old }
    ensures descend { HaveDescended C (2 ^ K) shares.now j (j + 2) j (map R.cells cells.old) waves.old (map R.cells cells.new) waves.new }
    ensures others { KeepsOthers j (j + 2) (map R.cells cells.old) (map R.cells cells.new) }
{
    descend_one::<K, C, R>(shares, cells, j + 1, true, -sign, waves);
    descend_one::<K, C, R>(shares, cells, j, false, sign, waves);
}

// `count` pairs on the way down.
#[inline(always)]
fn descend_pairs<const K: u32, const C: usize, R: StageRow<K, C>>(
    shares: &[Share],
    cells: &mut [R],
    start: usize,
    count: usize,
    sign: i64,
    waves: &mut [i64; C],
)
    requires some { 1 ≤ K }
    requires few { K ≤ 20 }
    requires runs { C ≤ 8 }
    requires inside { start + 2 * count ≤ length cells.old }
    requires each { length shares.now ≡ length cells.old }
    requires shares { AreShares (2 ^ K) shares.now }
    requires size { unsigned_abs sign ≤ 1 }
    requires pairs { HasPairs shares.now sign start count }
    requires can { AllCanDescend C (2 ^ K) shares.now start (start + 2 * count) (map R.cells cells.old) waves.old }
    ensures descend { HaveDescended C (2 ^ K) shares.now start (start + 2 * count) start (map R.cells cells.old) waves.old (map R.cells cells.new) waves.new }
    ensures others { KeepsOthers start (start + 2 * count) (map R.cells cells.old) (map R.cells cells.new) }
{
    let mut held = *waves;
    for done in 0..count {
        let i = count - 1 - done;
        descend_pair::<K, C, R>(shares, cells, start + 2 * i, sign, &mut held);
    }
    *waves = held;
}

// The parallel junction in front of the stage `start`, where there is one, on the way down.
#[inline(always)]
fn descend_lone<const K: u32, const C: usize, R: StageRow<K, C>>(
    shares: &[Share],
    cells: &mut [R],
    low: usize,
    start: usize,
    waves: &mut [i64; C],
)
    requires some { 1 ≤ K }
    requires few { K ≤ 20 }
    requires runs { C ≤ 8 }
    requires inside { start ≤ length cells.old }
    requires each { length shares.now ≡ length cells.old }
    requires shares { AreShares (2 ^ K) shares.now }
    requires lone { IsLone shares.now low start }
    requires can { AllCanDescend C (2 ^ K) shares.now low start (map R.cells cells.old) waves.old }
    ensures descend { HaveDescended C (2 ^ K) shares.now low start low (map R.cells cells.old) waves.old (map R.cells cells.new) waves.new }
    ensures others { KeepsOthers low start (map R.cells cells.old) (map R.cells cells.new) }
{
    if low < start {
        descend_one::<K, C, R>(shares, cells, low, true, shares[low].sign, waves);
    }
}

// The stages that alternate on the way down, where the sign makes no difference.
#[inline(always)]
fn descend_alternating<const K: u32, const C: usize, R: StageRow<K, C>>(
    shares: &[Share],
    cells: &mut [R],
    pairs: Pairs,
    waves: &mut [i64; C],
)
    requires some { 1 ≤ K }
    requires few { K ≤ 20 }
    requires runs { C ≤ 8 }
    requires inside { pairs.start + 2 * pairs.count ≤ length cells.old }
    requires each { length shares.now ≡ length cells.old }
    requires shares { AreShares (2 ^ K) shares.now }
    requires size { unsigned_abs pairs.sign ≡ 1 }
    requires lone { IsLone shares.now pairs.low pairs.start }
    requires pairs { HasPairs shares.now pairs.sign pairs.start pairs.count }
    requires can { AllCanDescend C (2 ^ K) shares.now pairs.low (pairs.start + 2 * pairs.count) (map R.cells cells.old) waves.old }
    ensures descend { HaveDescended C (2 ^ K) shares.now pairs.low (pairs.start + 2 * pairs.count) pairs.low (map R.cells cells.old) waves.old (map R.cells cells.new) waves.new }
    ensures others { KeepsOthers pairs.low (pairs.start + 2 * pairs.count) (map R.cells cells.old) (map R.cells cells.new) }
{
    let Pairs {
        low,
        start,
        count,
        sign,
    } = pairs;
    descend_pairs::<K, C, R>(shares, cells, start, count, sign, waves);
    descend_lone::<K, C, R>(shares, cells, low, start, waves);
}

/// They on the way down: `waves`, which the top is sent, become what the elements at the bottom
/// are sent.
#[inline(always)]
pub(crate) fn descend_by<const K: u32, const C: usize, R: StageRow<K, C>>(
    shares: &[Share],
    cells: &mut [R],
    first: usize,
    end: usize,
    pairs: Pairs,
    waves: &mut [i64; C],
)
    requires some { 1 ≤ K }
    requires few { K ≤ 20 }
    requires runs { C ≤ 8 }
    requires order { first ≤ end }
    requires inside { end ≤ length cells.old }
    requires each { length shares.now ≡ length cells.old }
    requires shares { AreShares (2 ^ K) shares.now }
    requires pairs { ArePairs shares.now first end pairs }
    requires can { AllCanDescend C (2 ^ K) shares.now first end (map R.cells cells.old) waves.old }
    ensures descend { HaveDescended C (2 ^ K) shares.now first end first (map R.cells cells.old) waves.old (map R.cells cells.new) waves.new }
    ensures others { KeepsOthers first end (map R.cells cells.old) (map R.cells cells.new) }
{
    descend::<K, C, R>(shares, cells, pairs.start + 2 * pairs.count, end, waves);
    descend_alternating::<K, C, R>(shares, cells, pairs, waves);
    descend::<K, C, R>(shares, cells, first, pairs.low, waves);
}
