ghost use Rattle.std.specs.Prelude.{◌≡◌, ◌+◌, ◌*◌, ◌<◌, ◌≤◌, ◌^◌, pos, ◌+ℤ◌, ◌-ℤ◌, ◌*ℤ◌, unsigned_abs};
ghost use Rattle.wdf_algebra.specs.JunctionValues.{parallel_value};
ghost use Rattle.wdf_algebra.specs.Truncation.{trunc};
ghost use Rattle.wdf_loop.specs.Cells.{AreWords, CanBegin, CanFall, CanRise, IsWord, bottom, fallen, fallen_parallel, fallen_series, given, reflects, risen, risen_parallel, risen_series, turned, value_of, wave_up};
ghost use Rattle.wdf_loop.specs.Parts.{sent_to};
ghost use Rattle.wdf_loop.specs.RunCells.{silent};

use crate::feed::Feed;
use crate::field::Field;
use crate::part::Part;
use crate::share::Share;
use crate::sums::{
    brought_back, minus, plus, raised, reflected, series_first_part, series_second_part, signed,
    weighed,
};
use wdf_algebra::{Rounded, root_part, times};

/// The numbers of a junction in one run, those of its last frame; all but `raw` are waves. One part
/// of the junction hangs beside it, and the other is the tree below.
#[derive(Clone, Copy, Debug, PartialEq, Eq)]
pub(crate) struct Cell {
    /// What the part beside reflects besides its own state: a source's value, or a tree's wave.
    pub(crate) fed: i64,
    /// What the tree below reflects besides its own state, where it is an element: a source's value.
    pub(crate) under: i64,
    /// What the part beside reflects.
    pub(crate) up: i64,
    /// What the tree below reflects.
    pub(crate) below: i64,
    /// What a parallel junction reflects before it is truncated, in units of 1/q.
    pub(crate) raw: i64,
    /// What the part beside is sent.
    pub(crate) down: i64,
    /// What the tree below is sent.
    pub(crate) onward: i64,
}

impl Cell {
    /// A cell before any frame.
    pub(crate) fn silent() -> Cell
        ensures { result ≡ silent }
    {
        Cell {
            fed: 0,
            under: 0,
            up: 0,
            below: 0,
            raw: 0,
            down: 0,
            onward: 0,
        }
    }

    // What the part beside reflects.
    #[inline(always)]
    fn reflected<const K: u32>(&self, share: Share) -> i64
        requires few { K ≤ 20 }
        requires sign { unsigned_abs share.sign ≤ 1 }
        requires fed { unsigned_abs self.now.fed ≤ 2 ^ 61 }
        requires down { IsWord (2 ^ K) self.now.down }
        ensures { result ≡ reflects share self.now }
    {
        reflected::<K>(share.sign, self.down, self.fed)
    }

    /// What the element below reflects, whose kind's sign is this.
    #[inline(always)]
    pub(crate) fn bottom<const K: u32>(&self, sign: i64) -> i64
        requires few { K ≤ 20 }
        requires sign { unsigned_abs sign ≤ 1 }
        requires can { CanBegin (2 ^ K) self.now }
        ensures { result ≡ bottom sign self.now }
    {
        reflected::<K>(sign, self.onward, self.under)
    }

    /// The number of this name.
    pub(crate) fn value(&self, field: Field) -> i64
        ensures { result ≡ value_of field self.now }
    {
        match field {
            Field::Up => self.up,
            Field::Down => self.down,
            Field::Below => self.below,
            Field::Onward => self.onward,
            Field::Raw => self.raw,
        }
    }

    /// What a part of its stage is sent.
    #[inline(always)]
    pub(crate) fn sent(&self, part: Part) -> i64
        ensures { result ≡ sent_to part self.now }
    {
        if part.beside { self.down } else { self.onward }
    }

    /// Feeds a source of the stage with its value.
    #[inline(always)]
    pub(crate) fn give(&mut self, feed: Feed, value: i64)
        requires { unsigned_abs value ≤ 2 ^ 60 }
        ensures { self.new ≡ given feed value self.old }
    {
        let fed = signed(feed.flip, value);
        if feed.beside {
            self.fed = fed;
        } else {
            self.under = fed;
        }
    }

    // A series junction on the way up.
    #[inline(always)]
    fn rise_series<const K: u32>(&mut self, share: Share, wave: i64) -> i64
        requires few { K ≤ 20 }
        requires can { CanRise (2 ^ K) share wave self.old }
        ensures cell { self.new ≡ risen_series share wave self.old }
        ensures wave { result ≡ self.new.up +ℤ self.new.below }
    {
        self.up = self.reflected::<K>(share);
        self.below = wave;
        plus(self.up, wave)
    }

    // A parallel junction on the way up.
    #[inline(always)]
    fn rise_parallel<const K: u32>(&mut self, share: Share, wave: i64) -> i64
        requires few { K ≤ 20 }
        requires whole { share.m + share.n ≡ 2 ^ K }
        requires can { CanRise (2 ^ K) share wave self.old }
        ensures cell { self.new ≡ risen_parallel share wave self.old }
        ensures wave { result ≡ trunc self.new.raw (2 ^ K) }
    {
        self.up = self.reflected::<K>(share);
        self.below = wave;
        self.raw = plus(weighed::<K>(share.m, self.up), weighed::<K>(share.n, wave));
        brought_back::<K>(self.raw)
    }

    /// A junction on the way up, the tree below reflecting `wave`: the wave that it reflects.
    #[inline(always)]
    pub(crate) fn rise<const K: u32>(&mut self, share: Share, wave: i64) -> i64
        requires few { K ≤ 20 }
        requires whole { share.m + share.n ≡ 2 ^ K }
        requires can { CanRise (2 ^ K) share wave self.old }
        ensures cell { self.new ≡ risen share wave self.old }
        ensures wave { result ≡ wave_up (2 ^ K) share self.new }
    {
        if share.parallel {
            self.rise_parallel::<K>(share, wave)
        } else {
            self.rise_series::<K>(share, wave)
        }
    }

    // A series junction on the way down. What the tree below is sent is made first and of few steps, since
    // all else waits for it.
    #[inline(always)]
    fn fall_series<const K: u32>(&mut self, share: Share, wave: i64) -> i64
        requires some { 1 ≤ K }
        requires few { K ≤ 20 }
        requires whole { share.m + share.n ≡ 2 ^ K }
        requires words { AreWords (2 ^ K) wave self.old }
        ensures cell { self.new ≡ fallen_series (2 ^ K) share wave self.old }
        ensures wave { result ≡ self.new.onward }
    {
        let whole = minus(wave, plus(self.up, self.below));
        let first = weighed::<K>(share.m, whole);
        self.onward = series_second_part::<K>(first, whole, self.below);
        self.down = series_first_part::<K>(first, self.up);
        self.onward
    }

    // A parallel junction on the way down.
    #[inline(always)]
    fn fall_parallel<const K: u32>(&mut self, wave: i64) -> i64
        requires few { K ≤ 20 }
        requires words { AreWords (2 ^ K) wave self.old }
        requires raw { unsigned_abs self.old.raw ≤ 2 ^ 61 }
        ensures cell { self.new ≡ fallen_parallel (2 ^ K) wave self.old }
        ensures wave { result ≡ self.new.onward }
    {
        let sum = Rounded::by_power::<K>(self.raw);
        self.onward = raised(sum, minus(wave, self.below));
        self.down = raised(sum, minus(wave, self.up));
        self.onward
    }

    /// A junction on the way down, which is sent `wave`: the wave that the tree below is sent.
    #[inline(always)]
    pub(crate) fn fall<const K: u32>(&mut self, share: Share, wave: i64) -> i64
        requires some { 1 ≤ K }
        requires few { K ≤ 20 }
        requires whole { share.m + share.n ≡ 2 ^ K }
        requires can { CanFall (2 ^ K) share wave self.old }
        ensures cell { self.new ≡ fallen (2 ^ K) share wave self.old }
        ensures wave { result ≡ self.new.onward }
    {
        if share.parallel {
            self.fall_parallel::<K>(wave)
        } else {
            self.fall_series::<K>(share, wave)
        }
    }

    /// The root, with the tree below reflecting `wave`: the wave that this tree is sent.
    #[inline(always)]
    pub(crate) fn turn<const K: u32>(&mut self, share: Share, wave: i64) -> i64
        requires few { K ≤ 20 }
        requires whole { share.m + share.n ≡ 2 ^ K }
        requires can { CanRise (2 ^ K) share wave self.old }
        ensures cell { self.new ≡ turned (2 ^ K) share wave self.old }
        ensures wave { result ≡ self.new.onward }
    {
        self.up = self.reflected::<K>(share);
        self.below = wave;
        let sum = plus(weighed::<K>(share.m, self.up), weighed::<K>(share.n, wave));
        let voltage = Rounded::by_power::<K>(times(2, sum));
        self.onward = root_part(voltage, wave);
        self.down = root_part(voltage, self.up);
        self.onward
    }
}
