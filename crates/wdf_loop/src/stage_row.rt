// The cells of a stage in several runs, as a group of runs keeps them.
ghost use Rattle.std.specs.Prelude.{◌≡◌, ℕ, ◌+◌, ◌<◌, ◌≤◌, ◌^◌, List, replicate, unsigned_abs};
ghost use Rattle.wdf_loop.specs.declared.cell.Cell.{Cell};
ghost use Rattle.wdf_loop.specs.Cells.{bottom, fed_with, given};
ghost use Rattle.wdf_loop.specs.LaneCells.{lane_cells};
ghost use Rattle.wdf_loop.specs.Parts.{sent_to};
ghost use Rattle.wdf_loop.specs.RunCells.{AllCanBegin, AllCanFall, AllCanRise, Falls, InEach, Rises, Turns, cell_in, silent, wave_in};

use crate::cell::Cell;
use crate::feed::Feed;
use crate::lane_cells::LaneCells;
use crate::part::Part;
use crate::runs;
use crate::share::Share;

/// The cells of a stage in `C` runs.
pub(crate) trait RunRow<const C: usize>: Drop {
    /// They, one behind the other.
    ghost cells: { Self → List Cell };

    /// They before any frame.
    fn at_rest() -> Self
        ensures { cells result ≡ replicate C silent };

    /// That of a run.
    fn cell(&self, c: usize) -> Cell
        requires { c < C }
        ensures { result ≡ cell_in (cells self.now) c };

    /// Feeds the parts beside the stage with `waves`.
    fn deliver(&mut self, waves: &[i64; C])
        ensures { (c : ℕ) → c < C → cell_in (cells self.new) c ≡ fed_with (wave_in waves.now c) (cell_in (cells self.old) c) };

    /// What these parts are sent.
    fn collect(&self, waves: &mut [i64; C])
        ensures { (c : ℕ) → c < C → wave_in waves.new c ≡ (cell_in (cells self.now) c).down };

    /// Feeds a source of the stage with its values.
    fn give(&mut self, feed: Feed, values: &[i64; C])
        requires { (c : ℕ) → c < C → unsigned_abs (wave_in values.now c) ≤ 2 ^ 60 }
        ensures { (c : ℕ) → c < C → cell_in (cells self.new) c ≡ given feed (wave_in values.now c) (cell_in (cells self.old) c) };

    /// What a part of the stage is sent.
    fn sent(&self, part: Part, waves: &mut [i64; C])
        ensures { (c : ℕ) → c < C → wave_in waves.new c ≡ sent_to part (cell_in (cells self.now) c) };
}

/// They with multipliers that are counted in units of 2^-K.
pub(crate) trait StageRow<const K: u32, const C: usize>: RunRow<C> {
    /// What the elements below the stage reflect, whose kind's sign is this.
    fn bottom(&self, sign: i64, waves: &mut [i64; C])
        requires few { K ≤ 20 }
        requires sign { unsigned_abs sign ≤ 1 }
        requires can { AllCanBegin (2 ^ K) C (Self.cells self.now) }
        ensures { (c : ℕ) → c < C → wave_in waves.new c ≡ bottom sign (cell_in (Self.cells self.now) c) };

    /// A junction on the way up, the trees below reflecting `waves`, which become what it reflects.
    fn rise(&mut self, share: Share, waves: &mut [i64; C])
        requires few { K ≤ 20 }
        requires whole { share.m + share.n ≡ 2 ^ K }
        requires can { AllCanRise (2 ^ K) C share waves.old (Self.cells self.old) }
        ensures { InEach C (Rises (2 ^ K) share) waves.old (Self.cells self.old) (Self.cells self.new) waves.new };

    /// The root, the trees below reflecting `waves`, which become what these are sent.
    fn turn(&mut self, share: Share, waves: &mut [i64; C])
        requires few { K ≤ 20 }
        requires whole { share.m + share.n ≡ 2 ^ K }
        requires can { AllCanRise (2 ^ K) C share waves.old (Self.cells self.old) }
        ensures { InEach C (Turns (2 ^ K) share) waves.old (Self.cells self.old) (Self.cells self.new) waves.new };

    /// A junction on the way down, which is sent `waves`; they become what the trees below are sent.
    fn fall(&mut self, share: Share, waves: &mut [i64; C])
        requires some { 1 ≤ K }
        requires few { K ≤ 20 }
        requires whole { share.m + share.n ≡ 2 ^ K }
        requires can { AllCanFall (2 ^ K) C share waves.old (Self.cells self.old) }
        ensures { InEach C (Falls (2 ^ K) share) waves.old (Self.cells self.old) (Self.cells self.new) waves.new };
}

/// They with multipliers of each width.
pub(crate) trait EveryRow<const C: usize>: StageRow<1, C>
    + StageRow<2, C>
    + StageRow<3, C>
    + StageRow<4, C>
    + StageRow<5, C>
    + StageRow<6, C>
    + StageRow<7, C>
    + StageRow<8, C>
    + StageRow<9, C>
    + StageRow<10, C>
    + StageRow<11, C>
    + StageRow<12, C>
    + StageRow<13, C>
    + StageRow<14, C>
    + StageRow<15, C>
    + StageRow<16, C>
    + StageRow<17, C>
    + StageRow<18, C>
    + StageRow<19, C>
    + StageRow<20, C> {}

impl<const C: usize> EveryRow<C> for [Cell; C] {}

impl<const N: usize> EveryRow<N> for LaneCells<N> {}

impl<const C: usize> RunRow<C> for [Cell; C] {
    ghost cells = { λ row. row };

    #[inline(always)]
    fn at_rest() -> [Cell; C] {
        [Cell::silent(); C]
    }

    #[inline(always)]
    fn cell(&self, c: usize) -> Cell {
        self[c]
    }

    #[inline(always)]
    fn deliver(&mut self, waves: &[i64; C]) {
        runs::deliver::<C>(self, waves);
    }

    #[inline(always)]
    fn collect(&self, waves: &mut [i64; C]) {
        runs::collect::<C>(self, waves);
    }

    #[inline(always)]
    fn give(&mut self, feed: Feed, values: &[i64; C]) {
        runs::give::<C>(self, feed, values);
    }

    #[inline(always)]
    fn sent(&self, part: Part, waves: &mut [i64; C]) {
        runs::sent::<C>(self, part, waves);
    }
}

impl<const K: u32, const C: usize> StageRow<K, C> for [Cell; C] {
    #[inline(always)]
    fn bottom(&self, sign: i64, waves: &mut [i64; C]) {
        runs::bottom::<K, C>(self, sign, waves);
    }

    #[inline(always)]
    fn rise(&mut self, share: Share, waves: &mut [i64; C]) {
        runs::rise::<K, C>(self, share, waves);
    }

    #[inline(always)]
    fn turn(&mut self, share: Share, waves: &mut [i64; C]) {
        runs::turn::<K, C>(self, share, waves);
    }

    #[inline(always)]
    fn fall(&mut self, share: Share, waves: &mut [i64; C]) {
        runs::fall::<K, C>(self, share, waves);
    }
}

impl<const N: usize> RunRow<N> for LaneCells<N> {
    ghost cells = { lane_cells };

    #[inline(always)]
    fn at_rest() -> LaneCells<N> {
        LaneCells::silent()
    }

    #[tactic(auto, using(crate::proofs::LaneRows::cell_of))]
    #[inline(always)]
    fn cell(&self, c: usize) -> Cell {
        self.cell_of_run(c)
    }

    #[tactic(auto, using(crate::proofs::LaneRows::cell_of))]
    #[inline(always)]
    fn deliver(&mut self, waves: &[i64; N]) {
        self.fed = *waves;
    }

    #[tactic(auto, using(crate::proofs::LaneRows::cell_of))]
    #[inline(always)]
    fn collect(&self, waves: &mut [i64; N]) {
        *waves = self.down;
    }

    #[tactic(auto, using(crate::proofs::LaneRows::cell_of))]
    #[inline(always)]
    fn give(&mut self, feed: Feed, values: &[i64; N]) {
        self.give_source(feed, *values);
    }

    #[tactic(auto, using(crate::proofs::LaneRows::cell_of))]
    #[inline(always)]
    fn sent(&self, part: Part, waves: &mut [i64; N]) {
        *waves = self.sent_part(part);
    }
}

impl<const K: u32, const N: usize> StageRow<K, N> for LaneCells<N> {
    #[tactic(auto, using(crate::proofs::LaneRows::cell_of))]
    #[inline(always)]
    fn bottom(&self, sign: i64, waves: &mut [i64; N]) {
        *waves = self.bottom_waves::<K>(sign);
    }

    #[tactic(auto, using(crate::proofs::LaneRows::rows_of))]
    #[inline(always)]
    fn rise(&mut self, share: Share, waves: &mut [i64; N]) {
        *waves = self.rise_all::<K>(share, *waves);
    }

    #[tactic(auto, using(crate::proofs::LaneRows::rows_of))]
    #[inline(always)]
    fn turn(&mut self, share: Share, waves: &mut [i64; N]) {
        *waves = self.turn_all::<K>(share, *waves);
    }

    #[tactic(auto, using(crate::proofs::LaneRows::rows_of))]
    #[inline(always)]
    fn fall(&mut self, share: Share, waves: &mut [i64; N]) {
        *waves = self.fall_all::<K>(share, *waves);
    }
}
