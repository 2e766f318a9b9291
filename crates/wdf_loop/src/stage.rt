ghost use Rattle.std.specs.Prelude.{◌≡◌, ◌≤◌};
ghost use Rattle.wdf_loop.specs.Stages.{IsPair, is_swapped, mark_of, share_of, stage_by};

use crate::ends::Ends;
use crate::mark::Mark;
use crate::share::Share;
use wdf_sched::Op;

/// A junction, or the root, with the slots of its operations on the way up and down.
#[derive(Clone, Copy, Debug, PartialEq, Eq)]
pub(crate) struct Stage {
    pub(crate) parallel: bool,
    /// The multiplier of the first part.
    pub(crate) m: u32,
    pub(crate) first: Ends,
    pub(crate) second: Ends,
    /// Of the tree above which the junction stands; at the root it means nothing.
    pub(crate) own: Ends,
    /// What a parallel junction reflects before it is truncated, and else as in `own`.
    pub(crate) raw: u16,
}

impl Stage {
    /// The stage of a junction's two operations, or of the root.
    pub(crate) fn of(up: Op, down: Op) -> Stage
        requires { IsPair up down }
        ensures { result ≡ stage_by up down }
    {
        match up {
            Op::UpSeries { a, b, out } => Stage::series(a, b, out, down),
            Op::UpParallel { a, b, m, raw, out } => Stage::parallel(a, b, m, raw, out, down),
            Op::Root { a, b, m, x, y } => Stage {
                parallel: false,
                m,
                first: Ends { up: a, down: x },
                second: Ends { up: b, down: y },
                own: Ends { up: 0, down: 0 },
                raw: 0,
            },
            _ => unreachable!(),
        }
    }

    fn series(a: u16, b: u16, out: u16, down: Op) -> Stage
        requires { IsPair (Op.UpSeries a b out) down }
        ensures { result ≡ stage_by (Op.UpSeries a b out) down }
    {
        let Op::DownSeries { d, m, x, y, .. } = down else {
            unreachable!()
        };
        Stage {
            parallel: false,
            m,
            first: Ends { up: a, down: x },
            second: Ends { up: b, down: y },
            own: Ends { up: out, down: d },
            raw: out,
        }
    }

    fn parallel(a: u16, b: u16, m: u32, raw: u16, out: u16, down: Op) -> Stage
        requires { IsPair (Op.UpParallel a b m raw out) down }
        ensures { result ≡ stage_by (Op.UpParallel a b m raw out) down }
    {
        let Op::DownParallel { d, x, y, .. } = down else {
            unreachable!()
        };
        Stage {
            parallel: true,
            m,
            first: Ends { up: a, down: x },
            second: Ends { up: b, down: y },
            own: Ends { up: out, down: d },
            raw,
        }
    }

    // Whether the second part hangs beside, since it is an element.
    fn is_swapped(&self, count: u16) -> bool
        ensures { result ≡ is_swapped count self.now }
    {
        self.second.up < count
    }

    /// Its slots, `count` being that of the elements. The part beside is the first one, unless the
    /// second is an element.
    pub(crate) fn mark(&self, count: u16) -> Mark
        ensures { result ≡ mark_of count self.now }
    {
        let (beside, below) = if self.is_swapped(count) {
            (self.second, self.first)
        } else {
            (self.first, self.second)
        };
        Mark {
            up: beside.up,
            down: beside.down,
            below: below.up,
            onward: below.down,
            raw: self.raw,
            out: self.own.up,
            sent: self.own.down,
        }
    }

    /// Its multipliers, which sum to `q`; `sign` is that of the part beside.
    pub(crate) fn share(&self, q: u32, count: u16, sign: i64) -> Share
        requires { self.now.m ≤ q }
        ensures { result ≡ share_of q count sign self.now }
    {
        let rest = q - self.m;
        let (m, n) = if self.is_swapped(count) {
            (rest, self.m)
        } else {
            (self.m, rest)
        };
        Share {
            m,
            n,
            parallel: self.parallel,
            sign,
        }
    }
}
