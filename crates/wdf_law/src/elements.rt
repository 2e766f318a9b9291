// The elements of two trees, the left tree's before the right one's.
ghost use Rattle.std.specs.Prelude.{◌≡◌, ◌≤◌, ◌++◌, length, slice_get};
ghost use Rattle.wdf_law.specs.Trees.{adaptor_tree, elements_of};
ghost use Rattle.wdf_law.specs.Network.{has_kind, has_source, numbers_with};
ghost use Rattle.wdf_law.specs.Roles.{is_of};

use crate::Tree;
use crate::role::Role;

// How many there are.
#[tactic(auto, using(crate::proofs::Counts::counts_of))]
pub(crate) fn leaves(left: &Tree, right: &Tree) -> usize
    requires { length (elements_of (adaptor_tree left.now) ++ elements_of (adaptor_tree right.now)) ≤ 128 }
    ensures { result ≡ length (elements_of (adaptor_tree left.now) ++ elements_of (adaptor_tree right.now)) }
{
    left.leaf_count() + right.leaf_count()
}

// Whether an element of this role has this number.
#[tactic(auto, using(crate::proofs::Walks::walks))]
pub(crate) fn has(left: &Tree, right: &Tree, role: Role, number: u32) -> bool
    ensures { result ≡ has_kind (is_of role) (elements_of (adaptor_tree left.now) ++ elements_of (adaptor_tree right.now)) number }
{
    left.has(role, number) || right.has(role, number)
}

// How many numbers below the count of the elements are those of an element of this role.
#[tactic(auto, using(crate::proofs::Ranges::count_more))]
pub(crate) fn count(left: &Tree, right: &Tree, role: Role) -> usize
    requires { length (elements_of (adaptor_tree left.now) ++ elements_of (adaptor_tree right.now)) ≤ 128 }
    ensures { result ≡ length (numbers_with (has_kind (is_of role)) (elements_of (adaptor_tree left.now) ++ elements_of (adaptor_tree right.now))) }
{
    let mut count = 0;
    for i in 0..leaves(left, right) {
        if has(left, right, role, i as u32) {
            count += 1;
        }
    }
    count
}

// The number of the source behind `skip` others, in the order of the numbers.
#[tactic(auto, using(crate::proofs::Ranges::count_more, crate::proofs::Ranges::passing_at))]
pub(crate) fn source_behind(left: &Tree, right: &Tree, skip: usize) -> Option<u32>
    requires { length (elements_of (adaptor_tree left.now) ++ elements_of (adaptor_tree right.now)) ≤ 128 }
    ensures { result ≡ slice_get (numbers_with has_source (elements_of (adaptor_tree left.now) ++ elements_of (adaptor_tree right.now))) skip }
{
    let mut before = 0;
    for i in 0..leaves(left, right) {
        if !has(left, right, Role::Source, i as u32) {
            continue;
        }
        if before == skip {
            return Some(i as u32);
        }
        before += 1;
    }
    None
}
