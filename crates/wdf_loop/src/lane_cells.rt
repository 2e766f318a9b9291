ghost use Rattle.std.specs.Prelude.{◌≡◌, ℕ, ◌+◌, ◌<◌, ◌≤◌, ◌^◌, true, false, replicate, unsigned_abs};
ghost use Rattle.wdf_loop.specs.Cells.{bottom, given, risen_series};
ghost use Rattle.wdf_loop.specs.LaneCells.{LanesCanBegin, LanesCanFall, LanesCanRise, InLanes, lane_cell, lane_cells};
ghost use Rattle.wdf_loop.specs.Parts.{sent_to};
ghost use Rattle.wdf_loop.specs.RunCells.{Falls, Rises, Turns, silent, wave_in};

use crate::cell::Cell;
use crate::feed::Feed;
use crate::lanes::{
    brought_back, parallel_parts, raws, reflected, root_parts, series_parts, signed_all,
};
use crate::part::Part;
use crate::share::Share;
use wdf_vector::{differences, sums};

/// The cells of a stage in `N` runs, number by number: at each place of an array stands that of one
/// of them.
#[derive(Clone, Copy)]
pub(crate) struct LaneCells<const N: usize> {
    pub(crate) fed: [i64; N],
    pub(crate) under: [i64; N],
    pub(crate) up: [i64; N],
    pub(crate) below: [i64; N],
    pub(crate) raw: [i64; N],
    pub(crate) down: [i64; N],
    pub(crate) onward: [i64; N],
}

impl<const N: usize> LaneCells<N> {
    /// The cells before any frame.
    pub(crate) fn silent() -> LaneCells<N>
        ensures { lane_cells result ≡ replicate N silent }
    {
        LaneCells {
            fed: [0; N],
            under: [0; N],
            up: [0; N],
            below: [0; N],
            raw: [0; N],
            down: [0; N],
            onward: [0; N],
        }
    }

    /// The cell of a run.
    pub(crate) fn cell_of_run(&self, c: usize) -> Cell
        requires { c < N }
        ensures { result ≡ lane_cell self.now c }
    {
        Cell {
            fed: self.fed[c],
            under: self.under[c],
            up: self.up[c],
            below: self.below[c],
            raw: self.raw[c],
            down: self.down[c],
            onward: self.onward[c],
        }
    }

    /// What the elements below reflect, whose kind's sign is this.
    #[inline(always)]
    pub(crate) fn bottom_waves<const K: u32>(&self, sign: i64) -> [i64; N]
        requires few { K ≤ 20 }
        requires sign { unsigned_abs sign ≤ 1 }
        requires can { LanesCanBegin (2 ^ K) self.now }
        ensures { (c : ℕ) → c < N → wave_in result c ≡ bottom sign (lane_cell self.now c) }
    {
        reflected::<K, N>(sign, self.onward, self.under)
    }

    /// Feeds sources of the stage with their values.
    #[inline(always)]
    pub(crate) fn give_source(&mut self, feed: Feed, values: [i64; N])
        requires { (c : ℕ) → c < N → unsigned_abs (wave_in values c) ≤ 2 ^ 60 }
        ensures { (c : ℕ) → c < N → lane_cell self.new c ≡ given feed (wave_in values.entry c) (lane_cell self.old c) }
    {
        let fed = signed_all(feed.flip, values);
        if feed.beside {
            self.fed = fed;
        } else {
            self.under = fed;
        }
    }

    /// What a part of the stage is sent.
    #[inline(always)]
    pub(crate) fn sent_part(&self, part: Part) -> [i64; N]
        ensures { (c : ℕ) → c < N → wave_in result c ≡ sent_to part (lane_cell self.now c) }
    {
        if part.beside { self.down } else { self.onward }
    }

    // What reflects on the way up: the parts beside, and the trees below with `waves`.
    #[inline(always)]
    fn raise<const K: u32>(&mut self, share: Share, waves: [i64; N])
        requires few { K ≤ 20 }
        requires can { LanesCanRise (2 ^ K) share waves self.old }
        ensures { (c : ℕ) → c < N → lane_cell self.new c ≡ risen_series share (wave_in waves.entry c) (lane_cell self.old c) }
    {
        self.up = reflected::<K, N>(share.sign, self.down, self.fed);
        self.below = waves;
    }

    /// The junctions on the way up, the trees below reflecting `waves`: what they reflect.
    #[inline(always)]
    pub(crate) fn rise_all<const K: u32>(&mut self, share: Share, waves: [i64; N]) -> [i64; N]
        requires few { K ≤ 20 }
        requires whole { share.m + share.n ≡ 2 ^ K }
        requires can { LanesCanRise (2 ^ K) share waves self.old }
        ensures { InLanes (Rises (2 ^ K) share) waves.entry self.old self.new result }
    {
        self.raise::<K>(share, waves);
        if share.parallel {
            self.raw = raws::<K, N>(share, self.up, waves);
            return brought_back::<K, N>(self.raw);
        }
        sums(self.up, waves)
    }

    // Series junctions on the way down.
    #[inline(always)]
    fn fall_series<const K: u32>(&mut self, share: Share, waves: [i64; N]) -> [i64; N]
        requires few { K ≤ 20 }
        requires whole { share.m + share.n ≡ 2 ^ K }
        requires can { LanesCanFall (2 ^ K) share waves self.old }
        requires series { share.parallel ≡ false }
        ensures { InLanes (Falls (2 ^ K) share) waves.entry self.old self.new result }
    {
        let whole = differences(waves, sums(self.up, self.below));
        let onward = series_parts::<K, N>(share.n, whole, self.below);
        self.onward = onward;
        self.down = series_parts::<K, N>(share.m, whole, self.up);
        onward
    }

    // Parallel junctions on the way down.
    #[inline(always)]
    fn fall_parallel<const K: u32>(&mut self, share: Share, waves: [i64; N]) -> [i64; N]
        requires few { K ≤ 20 }
        requires can { LanesCanFall (2 ^ K) share waves self.old }
        requires parallel { share.parallel ≡ true }
        ensures { InLanes (Falls (2 ^ K) share) waves.entry self.old self.new result }
    {
        let onward = parallel_parts::<K, N>(self.raw, waves, self.below);
        self.onward = onward;
        self.down = parallel_parts::<K, N>(self.raw, waves, self.up);
        onward
    }

    /// The junctions on the way down, which are sent `waves`: what the trees below are sent.
    #[inline(always)]
    pub(crate) fn fall_all<const K: u32>(&mut self, share: Share, waves: [i64; N]) -> [i64; N]
        requires few { K ≤ 20 }
        requires whole { share.m + share.n ≡ 2 ^ K }
        requires can { LanesCanFall (2 ^ K) share waves self.old }
        ensures { InLanes (Falls (2 ^ K) share) waves.entry self.old self.new result }
    {
        if share.parallel {
            self.fall_parallel::<K>(share, waves)
        } else {
            self.fall_series::<K>(share, waves)
        }
    }

    /// The root, with the trees below reflecting `waves`: what these are sent.
    #[inline(always)]
    pub(crate) fn turn_all<const K: u32>(&mut self, share: Share, waves: [i64; N]) -> [i64; N]
        requires few { K ≤ 20 }
        requires whole { share.m + share.n ≡ 2 ^ K }
        requires can { LanesCanRise (2 ^ K) share waves self.old }
        ensures { InLanes (Turns (2 ^ K) share) waves.entry self.old self.new result }
    {
        self.raise::<K>(share, waves);
        let half = raws::<K, N>(share, self.up, waves);
        self.onward = root_parts::<K, N>(half, waves);
        self.down = root_parts::<K, N>(half, self.up);
        self.onward
    }
}
