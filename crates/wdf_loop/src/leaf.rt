ghost use Rattle.std.specs.Prelude.{◌≡◌, ◌≤◌, unsigned_abs};
ghost use Rattle.wdf_law.specs.Network.{elements};
ghost use Rattle.wdf_law.specs.Trees.{adaptor_tree, elements_of};
ghost use Rattle.wdf_loop.specs.Leaves.{flip_in, found, sign_in, sign_of};

use wdf_law::{Kind, Net, Tree};

/// What an element is, and whether its leaf is flipped.
#[derive(Clone, Copy, Debug, PartialEq, Eq)]
pub(crate) struct Leaf {
    pub(crate) kind: Kind,
    pub(crate) flip: bool,
}

// The leaf with this number.
#[tactic(auto, using(crate::proofs::LeafLemmas::found_either))]
fn leaf_in(tree: &Tree, number: u32) -> Option<Leaf>
    ensures { result ≡ found (elements_of (adaptor_tree tree.now)) number }
{
    match tree {
        Tree::Leaf { elem, kind, flip } => {
            if *elem != number {
                return None;
            }
            Some(Leaf {
                kind: *kind,
                flip: *flip,
            })
        }
        Tree::Series { l, r, .. } | Tree::Parallel { l, r, .. } => match leaf_in(l, number) {
            Some(leaf) => Some(leaf),
            None => leaf_in(r, number),
        },
    }
}

// The element with this number.
#[tactic(auto, using(crate::proofs::LeafLemmas::found_either))]
fn leaf_of(net: &Net, number: u32) -> Option<Leaf>
    ensures { result ≡ found (elements net.now) number }
{
    match leaf_in(net.left(), number) {
        Some(leaf) => Some(leaf),
        None => leaf_in(net.right(), number),
    }
}

// The sign with which an element reflects its last down wave.
fn sign_of(kind: Kind) -> i64
    ensures { result ≡ sign_of kind }
{
    match kind {
        Kind::Cap => 1,
        Kind::Ind => -1,
        Kind::Res | Kind::Src => 0,
    }
}

/// The sign of the element with this number; 0 where there is none.
pub(crate) fn sign_at(net: &Net, number: u16) -> i64
    ensures { result ≡ sign_in net.now number }
{
    match leaf_of(net, u32::from(number)) {
        Some(leaf) => sign_of(leaf.kind),
        None => 0,
    }
}

/// Whether the element with this number is flipped.
pub(crate) fn flip_at(net: &Net, number: u32) -> bool
    ensures { result ≡ flip_in net.now number }
{
    match leaf_of(net, number) {
        Some(leaf) => leaf.flip,
        None => false,
    }
}
