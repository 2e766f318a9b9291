// Which stages of a chain alternate.
ghost use Rattle.std.specs.Prelude.{ℕ, ◌+◌, ◌*◌, ◌<◌, ◌≤◌, neg_ℤ, unsigned_abs, true, false, List, length, IsTrue};
ghost use Rattle.wdf_loop.specs.declared.share.Share.{Share};
ghost use Rattle.wdf_loop.specs.Layouts.{share_at};
ghost use Rattle.wdf_loop.specs.Pairs.{ArePairs, HasPairs, IsOfKind};

use crate::share::Share;

/// Stages of a chain that alternate: from the stage `start` on `count` times a series junction with
/// this sign, which is 1 or -1, and behind it a parallel one with the opposite sign. Where `low` is
/// below `start`, a parallel one with any sign stands alone in front of them.
#[derive(Clone, Copy, Debug, PartialEq, Eq)]
pub(crate) struct Pairs {
    pub(crate) low: usize,
    pub(crate) start: usize,
    pub(crate) count: usize,
    pub(crate) sign: i64,
}

// No pairs, in a chain that begins at the stage `first`.
fn no_pairs(first: usize) -> Pairs
    ensures { (shares : List Share) (end : ℕ) → first ≤ end → ArePairs shares first end result }
{
    Pairs {
        low: first,
        start: first,
        count: 0,
        sign: 1,
    }
}

// Whether a stage is of this kind.
fn is_of_kind(share: Share, parallel: bool, sign: i64) -> bool
    ensures { IsTrue result → IsOfKind parallel sign share }
{
    share.parallel == parallel && share.sign == sign
}

// How many pairs there are from the stage `start` on, before the stage `end`.
fn count_from(shares: &[Share], start: usize, end: usize, sign: i64) -> usize
    requires order { start ≤ end }
    requires inside { end ≤ length shares.now }
    requires size { unsigned_abs sign ≤ 1 }
    ensures inside { start + 2 * result ≤ end }
    ensures pairs { HasPairs shares.now sign start result }
{
    for i in 0..(end - start) / 2 {
        let j = start + 2 * i;
        if !is_of_kind(shares[j], false, sign) || !is_of_kind(shares[j + 1], true, -sign) {
            return i;
        }
    }
    (end - start) / 2
}

/// The pairs among the stages `first..end`, from the first series junction among the first two on.
pub(crate) fn pairs_of(shares: &[Share], first: usize, end: usize) -> Pairs
    requires order { first ≤ end }
    requires inside { end ≤ length shares.now }
    requires signs { (j : ℕ) → j < length shares.now → unsigned_abs (share_at shares.now j).sign ≤ 1 }
    ensures { ArePairs shares.now first end result }
{
    if end - first < 2 {
        return no_pairs(first);
    }
    let start = if shares[first].parallel {
        first + 1
    } else {
        first
    };
    let sign = shares[start].sign;
    if sign == 0 {
        return no_pairs(first);
    }
    let count = count_from(shares, start, end, sign);
    Pairs {
        low: first,
        start,
        count,
        sign,
    }
}
