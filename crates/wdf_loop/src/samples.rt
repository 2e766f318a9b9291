// Samples of runs as rows of values.
ghost use Rattle.std.specs.Prelude.{◌≡◌, ℕ, ◌+◌, ◌*◌, ◌<◌, ◌≤◌, ◌^◌, unsigned_abs, length, All, slice_index_or, []};
ghost use Rattle.wdf_law.specs.OutputRule.{scaled_up};
ghost use Rattle.wdf_loop.specs.Inputs.{HoldFrames, HoldsSamples};

use wdf_algebra::times;

// A sample with `guard` more bits.
#[tactic(auto, using(crate::proofs::Sizes::shifted_fits))]
fn scaled(sample: i64, guard: u8) -> i64
    requires guard { guard ≤ 16 }
    requires amplitude { unsigned_abs sample ≤ 2 ^ 31 }
    ensures { result ≡ scaled_up guard sample }
{
    times(sample, i64::from(1u32 << guard))
}

// The samples at every `stride`th place from `at` on, one for each run.
#[inline(always)]
fn scale_row<const C: usize>(
    samples: &[i64],
    at: usize,
    stride: usize,
    guard: u8,
    row: &mut [i64; C],
)
    requires guard { guard ≤ 16 }
    requires amplitude { All (λ s. unsigned_abs s ≤ 2 ^ 31) samples.now }
    requires inside { (c : ℕ) → c < C → at + c * stride < length samples.now }
    ensures { HoldsSamples C guard stride samples.now at row.new }
{
    for c in 0..C {
        row[c] = scaled(samples[at + c * stride], guard);
    }
}

// The samples of a frame, which begin at `at`, as rows from `from` on, one for each source.
#[inline(always)]
fn scale_frame<const C: usize>(
    samples: &[i64],
    at: usize,
    sources: usize,
    guard: u8,
    rows: &mut [[i64; C]],
    from: usize,
)
    requires runs { C ≤ 8 }
    requires guard { guard ≤ 16 }
    requires amplitude { All (λ s. unsigned_abs s ≤ 2 ^ 31) samples.now }
    requires inside { (i c : ℕ) → i < sources → c < C → at + i + c * sources < length samples.now }
    requires whole { at + sources ≤ length samples.now }
    requires room { from + sources ≤ length rows.old }
    ensures rows { (i : ℕ) → i < sources → HoldsSamples C guard sources samples.now (at + i) (slice_index_or rows.new (from + i) []) }
    ensures others { (k : ℕ) → k < from → slice_index_or rows.new k [] ≡ slice_index_or rows.old k [] }
{
    for i in 0..sources {
        scale_row::<C>(samples, at + i, sources, guard, &mut rows[from + i]);
    }
}

// Of `count` frames of the samples of `all` runs, those of the runs from `first` on. Where the caller has constants
// of the code for the places, the loops inside become one.
#[inline(always)]
fn scale_frames<const C: usize>(
    samples: &[i64],
    all: usize,
    first: usize,
    sources: usize,
    guard: u8,
    count: usize,
    rows: &mut [[i64; C]],
)
    requires runs { C ≤ 8 }
    requires guard { guard ≤ 16 }
    requires amplitude { All (λ s. unsigned_abs s ≤ 2 ^ 31) samples.now }
    requires few { count * all < 2 ^ 60 }
    requires within { first + C ≤ all }
    requires some { 1 ≤ C }
    requires each { length samples.now ≡ count * all * sources }
    requires room { length rows.old ≡ count * sources }
    ensures { HoldFrames C guard all first sources count samples.now rows.new }
{
    for f in 0..count {
        let at = (f * all + first) * sources;
        scale_frame::<C>(samples, at, sources, guard, rows, f * sources);
    }
}

/// Of `count` frames of the samples of `all` runs, those of the runs from `first` on, with `guard`
/// more bits: a row for each source of each frame, source 0 first.
pub(crate) fn scale_block<const C: usize>(
    samples: &[i64],
    all: usize,
    first: usize,
    sources: usize,
    guard: u8,
    count: usize,
    rows: &mut [[i64; C]],
)
    requires runs { C ≤ 8 }
    requires guard { guard ≤ 16 }
    requires amplitude { All (λ s. unsigned_abs s ≤ 2 ^ 31) samples.now }
    requires few { count * all < 2 ^ 60 }
    requires within { first + C ≤ all }
    requires some { 1 ≤ C }
    requires each { length samples.now ≡ count * all * sources }
    requires room { length rows.old ≡ count * sources }
    ensures { HoldFrames C guard all first sources count samples.now rows.new }
{
    if sources == 1 && all == C {
        scale_frames::<C>(samples, C, 0, 1, guard, count, rows);
    } else {
        scale_frames::<C>(samples, all, first, sources, guard, count, rows);
    }
}
