//! The residue step of a network, from the leaves up to the root and down again.

ghost use Rattle.std.specs.Prelude.{◌≡◌, ◌==◌, ℕ, ◌-◌, ◌^◌, ◌<◌, ◌≤◌, Bool, pos, length, replicate, slice_index_or, if◌then◌else◌, IfOk};
ghost use Rattle.wdf_law.specs.Trees.{adaptor_tree};
ghost use Rattle.wdf_law.specs.Network.{elements, has_leaf};
ghost use Rattle.wdf_law.specs.Solved.{reflected};
ghost use Rattle.wdf_law.specs.TreeRules.{IsSound};
ghost use Rattle.wdf_residue.specs.Residue.{prime, residue, AreResidues};
ghost use Rattle.wdf_check.specs.ResidueStep.{unit_inverse, mean, series_share, reflects, sends};
ghost use Rattle.wdf_check.specs.Stepping.{state_of, stepped};

use std::alloc::{AllocError, Global};
use wdf_law::{Kind, Net, Tree, laws};
use wdf_residue::{minus, plus, times};

// The inverse of q = 2^k modulo P.
#[tactic(auto, using(crate::proofs::StepCodes::shifted))]
fn unit_inverse(k: u8) -> u64
    requires { (1 ≤ k) × (k ≤ 20) }
    ensures value { result ≡ 2 ^ (61 - k) }
    ensures residue { result < prime }
{
    1 << (61 - k)
}

// q - m, the multiplier of the other part, with q = 2^k.
fn complement(k: u8, m: u32) -> u32
    requires width { (1 ≤ k) × (k ≤ 20) }
    requires multiplier { m < 2 ^ k }
    ensures { result ≡ 2 ^ k - m }
{
    (1 << k) - m
}

// (m·u1 + (q - m)·u2) / q modulo P, with q = 2^k.
#[tactic(auto, using(crate::proofs::StepCodes::mean_code))]
fn mean(k: u8, m: u32, u1: u64, u2: u64) -> u64
    requires width { (1 ≤ k) × (k ≤ 20) }
    requires multiplier { m < 2 ^ k }
    requires first { u1 < prime }
    requires second { u2 < prime }
    ensures value { result ≡ residue (mean (2 ^ k) (unit_inverse k) m (pos u1) (pos u2)) }
    ensures residue { result < prime }
{
    let whole = plus(
        times(u64::from(m), u1),
        times(u64::from(complement(k, m)), u2),
    );
    times(whole, unit_inverse(k))
}

// u + m·(d - u1 - u2) / q modulo P, with q = 2^k.
#[tactic(auto, using(crate::proofs::StepCodes::share_code))]
fn series_share(k: u8, m: u32, u1: u64, u2: u64, d: u64, u: u64) -> u64
    requires width { (1 ≤ k) × (k ≤ 20) }
    requires multiplier { m < 2 ^ k }
    requires first { u1 < prime }
    requires second { u2 < prime }
    requires down { d < prime }
    requires own { u < prime }
    ensures value { result ≡ residue (series_share (unit_inverse k) m (pos u1) (pos u2) (pos d) (pos u)) }
    ensures residue { result < prime }
{
    let share = times(u64::from(m), minus(minus(d, u1), u2));
    plus(u, times(share, unit_inverse(k)))
}

// What an element of this kind reflects without input.
fn reflected(kind: Kind, state: u64) -> u64
    requires { state < prime }
    ensures value { (flip : Bool) → result ≡ residue (reflected kind flip (pos state) (pos 0)) }
    ensures residue { result < prime }
{
    match kind {
        Kind::Res | Kind::Src => 0,
        Kind::Cap => state,
        Kind::Ind => minus(0, state),
    }
}

// The state at a number, 0 behind the end.
fn state_at(states: &[u64], number: u32) -> u64
    requires { AreResidues states.now }
    ensures value { result ≡ slice_index_or states.now number 0 }
    ensures residue { result < prime }
{
    let at = number as usize;
    if at < states.len() { states[at] } else { 0 }
}

// The wave that the tree reflects.
#[tactic(auto, using(crate::proofs::StepCodes::climbing))]
fn climb(tree: &Tree, k: u8, states: &[u64]) -> u64
    requires width { (1 ≤ k) × (k ≤ 20) }
    requires sound { IsSound (2 ^ k) (adaptor_tree tree.now) }
    requires residues { AreResidues states.now }
    ensures value { result ≡ residue (reflects (2 ^ k) (unit_inverse k) (state_of states.now) (adaptor_tree tree.now)) }
    ensures residue { result < prime }
{
    match tree {
        Tree::Leaf { elem, kind, .. } => reflected(*kind, state_at(states, *elem)),
        Tree::Series { l, r, .. } => plus(climb(l, k, states), climb(r, k, states)),
        Tree::Parallel { m, l, r } => mean(k, *m, climb(l, k, states), climb(r, k, states)),
    }
}

// Writes the wave at a number, if there is such a place.
fn put(sent: &mut [u64], number: u32, wave: u64)
    ensures { (i : ℕ) → i < length sent.old
        → slice_index_or sent.new i 0 ≡ (if number == i then wave else slice_index_or sent.old i 0) }
{
    let at = number as usize;
    if at < sent.len() {
        sent[at] = wave;
    }
}

// Writes the waves that the tree's elements are sent, where the tree is sent `d`. The second part is
// written before the first.
fn descend(tree: &Tree, k: u8, states: &[u64], d: u64, sent: &mut [u64])
    requires width { (1 ≤ k) × (k ≤ 20) }
    requires sound { IsSound (2 ^ k) (adaptor_tree tree.now) }
    requires residues { AreResidues states.now }
    requires down { d < prime }
    ensures { (i : ℕ) → i < length sent.old
        → slice_index_or sent.new i 0
        ≡ (if has_leaf (adaptor_tree tree.now) i
        then residue (sends (2 ^ k) (unit_inverse k) (state_of states.now) (adaptor_tree tree.now) (pos d) i)
        else slice_index_or sent.old i 0) }
{
    match tree {
        Tree::Leaf { elem, .. } => put(sent, *elem, d),
        Tree::Series { m, l, r } => {
            let u1 = climb(l, k, states);
            let u2 = climb(r, k, states);
            let first = series_share(k, *m, u1, u2, d, u1);
            let second = series_share(k, complement(k, *m), u1, u2, d, u2);
            descend(r, k, states, second, sent);
            descend(l, k, states, first, sent);
        }
        Tree::Parallel { m, l, r } => {
            let u1 = climb(l, k, states);
            let u2 = climb(r, k, states);
            let whole = plus(d, mean(k, *m, u1, u2));
            descend(r, k, states, minus(whole, u2), sent);
            descend(l, k, states, minus(whole, u1), sent);
        }
    }
}

// Writes the next states of all elements over zeros.
fn put_step(net: &Net, states: &[u64], sent: &mut [u64])
    requires residues { AreResidues states.now }
    requires zeros { sent.old ≡ replicate (length (elements net.now)) 0 }
    ensures { sent.new ≡ stepped net.now states.now }
{
    laws::multipliers(net);
    laws::numbers(net);
    let k = net.k();
    let u1 = climb(net.left(), k, states);
    let u2 = climb(net.right(), k, states);
    let u = mean(k, net.root_m(), u1, u2);
    let twice = plus(u, u);
    descend(net.right(), k, states, minus(twice, u2), sent);
    descend(net.left(), k, states, minus(twice, u1), sent);
}

// The residue step of a network: the next states of all elements, by their numbers.
pub(crate) fn step(alloc: Global, net: &Net, states: &[u64]) -> Result<Vec<u64>, AllocError>
    requires { AreResidues states.now }
    ensures { IfOk result (λ v. v.items ≡ stepped net.now states.now) }
{
    let mut sent = vec![in alloc; 0; net.element_count()]?;
    put_step(net, states, &mut sent);
    Ok(sent)
}
