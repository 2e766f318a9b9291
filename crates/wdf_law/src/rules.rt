// The rules of a network, one function for each that may be broken.
ghost use Rattle.std.specs.Prelude.{◌≡◌, ◌≤◌, ◌+◌, ◌^◌, ◌++◌, ◌∷◌, length, not, None, IfNone, replicate, slice_get, slice_index_or, false};
ghost use Rattle.std.specs.List.{find, range_with_len};
ghost use Rattle.wdf_law.specs.Trees.{adaptor_tree, elements_of, first_of};
ghost use Rattle.wdf_law.specs.Network.{adaptors_between, network_of, numbers_of, numbers_with, has_source, has_outlet};
ghost use Rattle.wdf_law.specs.Refusal.{first_out, first_large};
ghost use Rattle.wdf_law.specs.RefusalOrder.{refusal, number_fault, source_fault};
ghost use Rattle.wdf_law.specs.Marks.{first_marked, marked};

use crate::elements::{has, leaves, source_behind};
use crate::role::Role;
use crate::{MAX_SOURCES, NetError, Outlet, Tree};

// The first leaf of the first adaptor whose multiplier is not in 1..=q-1, the root first.
#[tactic(auto, using(crate::proofs::Walks::walks))]
fn multiplier_out(q: u32, m: u32, left: &Tree, right: &Tree) -> Option<u32>
    ensures { result ≡ first_out q (adaptors_between m (adaptor_tree left.now) (adaptor_tree right.now)) }
{
    if m < 1 || m >= q {
        return Some(left.first_leaf());
    }
    match left.first_out(q) {
        Some(elem) => Some(elem),
        None => right.first_out(q),
    }
}

#[tactic(auto, using(crate::proofs::Walks::walks))]
fn large(left: &Tree, right: &Tree) -> Option<u32>
    ensures { result ≡ first_large (numbers_of (adaptor_tree left.now) ++ numbers_of (adaptor_tree right.now)) }
{
    match left.first_large() {
        Some(elem) => Some(elem),
        None => right.first_large(),
    }
}

#[tactic(auto, using(crate::proofs::Walks::walks))]
fn double(left: &Tree, right: &Tree, marks: &mut [bool; 128]) -> Option<u32>
    ensures first { result ≡ first_marked marks.old (numbers_of (adaptor_tree left.now) ++ numbers_of (adaptor_tree right.now)) }
    ensures marks { IfNone result (marks.new ≡ marked marks.old (numbers_of (adaptor_tree left.now) ++ numbers_of (adaptor_tree right.now))) }
{
    match left.mark(marks) {
        Some(elem) => Some(elem),
        None => right.mark(marks),
    }
}

// The least number below the count that is not marked.
#[tactic(auto, using(crate::proofs::Ranges::none_below))]
fn missing(marks: &[bool; 128], count: usize) -> Option<u32>
    requires { count ≤ 128 }
    ensures { result ≡ find (λ i. not (slice_index_or marks.now i false)) (range_with_len 0 count) }
{
    for i in 0..count {
        if !marks[i] {
            return Some(i as u32);
        }
    }
    None
}

// No source, or one too many.
#[tactic(auto, using(crate::proofs::Sources::source_faults))]
fn source(left: &Tree, right: &Tree) -> Option<NetError>
    requires { length (elements_of (adaptor_tree left.now) ++ elements_of (adaptor_tree right.now)) ≤ 128 }
    ensures { result ≡ source_fault (numbers_with has_source (elements_of (adaptor_tree left.now) ++ elements_of (adaptor_tree right.now))) }
{
    if source_behind(left, right, 0).is_none() {
        return Some(NetError::NoSource);
    }
    match source_behind(left, right, MAX_SOURCES) {
        Some(elem) => Some(NetError::TooManySources { elem }),
        None => None,
    }
}

#[tactic(auto, using(crate::proofs::Walks::walks))]
fn outlet_stands(left: &Tree, right: &Tree, outlet: Outlet) -> bool
    ensures { result ≡ has_outlet (elements_of (adaptor_tree left.now) ++ elements_of (adaptor_tree right.now)) outlet }
{
    match outlet {
        Outlet::Load(number) => has(left, right, Role::Resistor, number),
        Outlet::Source => true,
    }
}

// A number of 128 or more, a double number, or a missing one.
fn number_fault(left: &Tree, right: &Tree) -> Option<NetError>
    ensures fault { result ≡ number_fault (numbers_of (adaptor_tree left.now) ++ numbers_of (adaptor_tree right.now)) }
    ensures few { IfNone result (length (elements_of (adaptor_tree left.now) ++ elements_of (adaptor_tree right.now)) ≤ 128) }
{
    if let Some(elem) = large(left, right) {
        return Some(NetError::BadElement { elem });
    }
    let mut marks = [false; 128];
    if let Some(elem) = double(left, right, &mut marks) {
        return Some(NetError::DoubleElement { elem });
    }
    match missing(&marks, leaves(left, right)) {
        Some(elem) => Some(NetError::MissingElement { elem }),
        None => None,
    }
}

// The first rule that is broken.
#[tactic(auto, using(crate::proofs::Walks::walks))]
pub(crate) fn refused(k: u8, m: u32, left: &Tree, right: &Tree, outlet: Outlet) -> Option<NetError>
    ensures { result ≡ refusal (network_of k m left.now right.now outlet) }
{
    if k < 1 || k > 20 {
        return Some(NetError::BadWidth { k });
    }
    if !left.within(128) || !right.within(128) {
        return Some(NetError::TooDeep);
    }
    if let Some(elem) = multiplier_out(1 << k, m, left, right) {
        return Some(NetError::BadMultiplier { elem });
    }
    if let Some(error) = number_fault(left, right) {
        return Some(error);
    }
    if let Some(error) = source(left, right) {
        return Some(error);
    }
    if outlet_stands(left, right, outlet) {
        None
    } else {
        Some(NetError::NoOutlet)
    }
}
