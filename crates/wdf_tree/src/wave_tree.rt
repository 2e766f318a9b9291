ghost use Rattle.std.specs.Prelude.{◌≡◌, ◌≤◌, ◌^◌, length, unsigned_abs, IfOk};
ghost use Rattle.wdf_law.specs.Trees.{adaptor_tree, elements_of};
ghost use Rattle.wdf_law.specs.OutputRule.{is_flipped};
ghost use Rattle.wdf_law.specs.TreeRules.{IsSound};
ghost use Rattle.wdf_law.specs.Solved.{reflected, ups};
ghost use Rattle.wdf_tree.specs.Words.{IsWord};
ghost use Rattle.wdf_tree.specs.Places.{at_place};
ghost use Rattle.wdf_tree.specs.WaveTrees.{tree_of, spread, IsFilled, IsPlaced, HasWordUps, HasWordDowns};

use crate::junction::{parallel_down, parallel_up, series_down, series_up};
use crate::width::Width;
use std::alloc::{AllocError, Global};
use wdf_law::{Kind, Tree};

/// The waves that the two parts of a junction reflect.
#[derive(Clone, Copy)]
pub(crate) struct UpWaves {
    first: i64,
    second: i64,
}

/// A tree of adaptors that keeps, at each junction, the waves of its parts on their way up.
#[derive(Drop)]
pub(crate) enum WaveTree {
    Leaf {
        elem: u32,
        kind: Kind,
        flip: bool,
    },
    Series {
        m: u32,
        up: UpWaves,
        l: Box<WaveTree>,
        r: Box<WaveTree>,
    },
    Parallel {
        m: u32,
        up: UpWaves,
        l: Box<WaveTree>,
        r: Box<WaveTree>,
    },
}

const SILENT: UpWaves = UpWaves {
    first: 0,
    second: 0,
};

// What an element reflects, with its state and its input.
fn leaf_up(kind: Kind, flip: bool, state: i64, input: i64) -> i64
    requires { unsigned_abs (reflected kind flip state input) ≤ 2 ^ 60 }
    ensures { result ≡ reflected kind flip state input }
{
    match kind {
        Kind::Res => 0,
        Kind::Src => { if flip { -input } else { input } }
        Kind::Cap => state,
        Kind::Ind => -state,
    }
}

impl WaveTree {
    /// A tree of a network, with silent waves.
    pub(crate) fn of(alloc: Global, tree: &Tree) -> Result<WaveTree, AllocError>
        ensures { IfOk result (λ waves. tree_of waves ≡ adaptor_tree tree.now) }
    {
        match tree {
            Tree::Leaf { elem, kind, flip } => Ok(WaveTree::Leaf {
                elem: *elem,
                kind: *kind,
                flip: *flip,
            }),
            Tree::Series { m, l, r } => Ok(WaveTree::Series {
                m: *m,
                up: SILENT,
                l: Box::new(alloc, WaveTree::of(alloc, l)?)?,
                r: Box::new(alloc, WaveTree::of(alloc, r)?)?,
            }),
            Tree::Parallel { m, l, r } => Ok(WaveTree::Parallel {
                m: *m,
                up: SILENT,
                l: Box::new(alloc, WaveTree::of(alloc, l)?)?,
                r: Box::new(alloc, WaveTree::of(alloc, r)?)?,
            }),
        }
    }

    /// Whether the leaf with this number is flipped.
    #[tactic(auto, using(crate::proofs::PlaceLemmas::flipped_either))]
    pub(crate) fn is_flipped(&self, number: u32) -> bool
        ensures { result ≡ is_flipped (elements_of (tree_of self.now)) number }
    {
        match self {
            WaveTree::Leaf { elem, flip, .. } => *elem == number && *flip,
            WaveTree::Series { l, r, .. } | WaveTree::Parallel { l, r, .. } => {
                l.is_flipped(number) || r.is_flipped(number)
            }
        }
    }

    /// The way up: what the tree reflects, with the states and the inputs by the elements' numbers.
    pub(crate) fn climb(&mut self, w: Width, states: &[i64; 128], inputs: &[i64; 128]) -> i64
        requires placed { IsPlaced 128 (tree_of self.old) }
        requires multipliers { IsSound w.q (tree_of self.old) }
        requires words { HasWordUps w.q (at_place states.now) (at_place inputs.now) (tree_of self.old) }
        ensures word { IsWord w.q result }
        ensures value { result ≡ ups w.q (at_place states.now) (at_place inputs.now) (tree_of self.old) }
        ensures same { tree_of self.new ≡ tree_of self.old }
        ensures filled { IsFilled w.q (at_place states.now) (at_place inputs.now) self.new }
    {
        match self {
            WaveTree::Leaf { elem, kind, flip } => {
                let at = *elem as usize;
                leaf_up(*kind, *flip, states[at], inputs[at])
            }
            WaveTree::Series { up, l, r, .. } => {
                up.first = l.climb(w, states, inputs);
                up.second = r.climb(w, states, inputs);
                series_up(w, up.first, up.second)
            }
            WaveTree::Parallel { m, up, l, r } => {
                up.first = l.climb(w, states, inputs);
                up.second = r.climb(w, states, inputs);
                parallel_up(w, *m, up.first, up.second)
            }
        }
    }

    /// The way down from the wave `d` that the tree is sent: each element's wave, at the place of
    /// its number.
    pub(crate) fn descend(&self, w: Width, d: i64, downs: &mut [i64; 128])
        requires placed { IsPlaced 128 (tree_of self.now) }
        requires multipliers { IsSound w.q (tree_of self.now) }
        requires words { HasWordDowns w.q self.now d }
        ensures { downs.new ≡ spread w.q self.now d downs.old }
    {
        match self {
            WaveTree::Leaf { elem, .. } => downs[*elem as usize] = d,
            WaveTree::Series { m, up, l, r } => {
                let first = series_down(w, *m, up.first, up.second, d, up.first);
                let second = series_down(w, w.q - *m, up.first, up.second, d, up.second);
                l.descend(w, first, downs);
                r.descend(w, second, downs);
            }
            WaveTree::Parallel { m, up, l, r } => {
                let first = parallel_down(w, *m, up.first, up.second, d, up.first);
                let second = parallel_down(w, *m, up.first, up.second, d, up.second);
                l.descend(w, first, downs);
                r.descend(w, second, downs);
            }
        }
    }
}
