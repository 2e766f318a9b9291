ghost use Rattle.std.specs.Prelude.{◌≡◌, ℕ, ◌<◌, ◌≤◌, ◌^◌, ◌↔◌, ◌++◌, ◌-◌, length, None, Some, IsOk, IfOk, slice_get, map};
ghost use Rattle.wdf_law.specs.Trees.{adaptor_tree};
ghost use Rattle.wdf_law.specs.Network.{IsNetwork, Adaptor, network_of, adaptors_of, elements, multipliers, reactances, has_reactance, has_absorbing, source_numbers};
ghost use Rattle.wdf_law.specs.Marks.{number_behind};
ghost use Rattle.wdf_law.specs.OutputRule.{outlet_element};
ghost use Rattle.wdf_law.specs.Refusal.{HasBadWidth, IsTooDeep, HasBadMultiplier, HasBadElement, HasDoubleElement, HasMissingElement, HasNoSource, HasTooManySources, HasNoOutlet};
ghost use Rattle.wdf_law.specs.declared.TheConstants.{MAX_SOURCES};

use crate::elements::{count, has, leaves, source_behind};
use crate::role::Role;
use crate::rules::refused;
use crate::{NetError, Outlet, Tree};
use std::alloc::{AllocError, Global};
use std::marker::Model;

/// A quantised network: a left and a right tree of adaptors that are joined at the root. Its
/// multipliers are counted in units of `2^-k`.
///
/// It keeps that `k` is in 1..=20 and every multiplier in `1..=2^k - 1`; that its elements are the
/// numbers from 0 to their count less 1, each once, at least 2 and at most 128 of them; that 1 to
/// [`MAX_SOURCES`] are sources; that an outlet `Load` names a resistor; and that no tree is deeper
/// than 128. Its sources are numbered from 0 in the order of their elements' numbers.
#[derive(Drop)]
pub struct Net {
    k: u8,
    m: u32,
    left: Tree,
    right: Tree,
    outlet: Outlet,
}

impl Model for Net {
    ghost use Rattle.wdf_law.specs.Network.{Network};
    ghost use Rattle.wdf_law.specs.NetworkCode.{network_code};

    ghost Value = { Network };

    ghost coded = { network_code };

    ghost use Rattle.wdf_law.specs.Trees.{adaptor_tree};
    ghost use Rattle.wdf_law.specs.Network.{IsNetwork};

    ghost view = { λ n. record { k = n.k; m = n.m; left = adaptor_tree n.left; right = adaptor_tree n.right; outlet = n.outlet } };

    ghost invariant = { λ n. IsNetwork (record { k = n.k; m = n.m; left = adaptor_tree n.left; right = adaptor_tree n.right; outlet = n.outlet }) };
}

impl Net {
    /// Joins two trees at the root, whose multiplier is `m`, in units of `2^-k`.
    ///
    /// Leaves are looked at in the order left tree, right tree, the first part before the second;
    /// junctions in the order root, left tree, right tree, each before its parts.
    ///
    /// # Errors
    ///
    /// The first rule that is broken, in the order of the variants of [`NetError`].
    pub fn new(k: u8, m: u32, left: Tree, right: Tree, outlet: Outlet) -> Result<Net, NetError>
        ensures accepted { IsOk result ↔ IsNetwork (network_of k m left right outlet) }
        ensures network { IfOk result (λ net. net ≡ network_of k m left right outlet) }

        // Each refusal comes exactly where its rule is broken, and none before it.
        ensures bad_width { (result ≡ Err (NetError.BadWidth k)) ↔ HasBadWidth (network_of k m left right outlet) k }
        ensures too_deep { (result ≡ Err NetError.TooDeep) ↔ IsTooDeep (network_of k m left right outlet) }
        ensures bad_multiplier { (e : ℕ) → (result ≡ Err (NetError.BadMultiplier e)) ↔ HasBadMultiplier (network_of k m left right outlet) e }
        ensures bad_element { (e : ℕ) → (result ≡ Err (NetError.BadElement e)) ↔ HasBadElement (network_of k m left right outlet) e }
        ensures double_element { (e : ℕ) → (result ≡ Err (NetError.DoubleElement e)) ↔ HasDoubleElement (network_of k m left right outlet) e }
        ensures missing_element { (e : ℕ) → (result ≡ Err (NetError.MissingElement e)) ↔ HasMissingElement (network_of k m left right outlet) e }
        ensures no_source { (result ≡ Err NetError.NoSource) ↔ HasNoSource (network_of k m left right outlet) }
        ensures too_many_sources { (e : ℕ) → (result ≡ Err (NetError.TooManySources e)) ↔ HasTooManySources (network_of k m left right outlet) e }
        ensures no_outlet { (result ≡ Err NetError.NoOutlet) ↔ HasNoOutlet (network_of k m left right outlet) }
    {
        match refused(k, m, &left, &right, outlet) {
            Some(error) => Err(error),
            None => Ok(Net {
                k,
                m,
                left,
                right,
                outlet,
            }),
        }
    }

    /// The same network once more.
    ///
    /// # Errors
    ///
    /// Where no memory is left.
    pub fn copy(&self, alloc: Global) -> Result<Net, AllocError>
        ensures { IfOk result (λ net. net ≡ self.now) }
    {
        let left = self.left.copy(alloc)?;
        let right = self.right.copy(alloc)?;
        Ok(Net {
            k: self.k,
            m: self.m,
            left,
            right,
            outlet: self.outlet,
        })
    }

    /// The width of the multipliers, in bits.
    pub fn k(&self) -> u8
        ensures value { result ≡ self.now.k }
        ensures range { (1 ≤ result) × (result ≤ 20) }
    {
        self.k
    }

    /// The root's multiplier, in units of `2^-k`.
    #[tactic(auto, using(crate::proofs::Counts::root_range))]
    pub fn root_m(&self) -> u32
        ensures value { result ≡ self.now.m }
        ensures range { (1 ≤ result) × (result < 2 ^ self.now.k) }
    {
        self.m
    }

    pub fn left(&self) -> &Tree
        ensures { adaptor_tree result.now ≡ self.now.left }
    {
        &self.left
    }

    pub fn right(&self) -> &Tree
        ensures { adaptor_tree result.now ≡ self.now.right }
    {
        &self.right
    }

    /// The element whose down wave is the output.
    pub fn outlet(&self) -> Outlet
        ensures { result ≡ self.now.outlet }
    {
        self.outlet
    }

    /// The number of the element whose down wave is the output: the load's, or that of source 0.
    #[tactic(auto, using(crate::proofs::Counts::outlet_source))]
    pub fn outlet_element(&self) -> u32
        ensures { result ≡ outlet_element self.now }
    {
        match self.outlet {
            Outlet::Load(number) => number,
            Outlet::Source => match self.source_at(0) {
                Some(number) => number,
                // Every network has a source.
                None => unreachable!(),
            },
        }
    }

    /// How many elements the network has.
    pub fn element_count(&self) -> usize
        ensures count { result ≡ length (elements self.now) }
        ensures some { 2 ≤ result }
        ensures few { result ≤ 128 }
    {
        leaves(&self.left, &self.right)
    }

    /// How many capacitors and inductors the network has: the length of its state.
    pub fn state_count(&self) -> usize
        ensures { result ≡ length (reactances self.now) }
    {
        count(&self.left, &self.right, Role::Reactance)
    }

    /// How many sources the network has: the length of its input.
    pub fn source_count(&self) -> usize
        ensures count { result ≡ length (source_numbers self.now) }
        ensures some { 1 ≤ result }
        ensures few { result ≤ MAX_SOURCES }
    {
        count(&self.left, &self.right, Role::Source)
    }

    /// The element that is source `i`, where there is one.
    pub fn source_at(&self, i: usize) -> Option<u32>
        ensures number { result ≡ slice_get (source_numbers self.now) i }
        ensures none { (result ≡ None) ↔ (length (source_numbers self.now) ≤ i) }
    {
        source_behind(&self.left, &self.right, i)
    }

    /// A multiplier, in units of `2^-k`, in the order root, left tree, right tree, each junction
    /// before its parts; a network has one fewer than elements.
    #[tactic(auto, using(crate::proofs::Counts::multiplier_none))]
    pub fn multiplier_at(&self, i: usize) -> Option<u32>
        ensures value { result ≡ slice_get (multipliers self.now) i }
        ensures none { (result ≡ None) ↔ (length (elements self.now) - 1 ≤ i) }
    {
        self.multiplier(i)
    }

    #[tactic(auto, using(crate::proofs::Walks::get_behind))]
    fn multiplier(&self, i: usize) -> Option<u32>
        ensures { result ≡ slice_get (multipliers self.now) i }
    {
        if i == 0 {
            return Some(self.m);
        }
        self.multiplier_behind(i - 1).ok()
    }

    // The multiplier behind the root's and `skip` others, or how many are still to skip.
    #[tactic(auto, using(crate::proofs::Walks::walks))]
    fn multiplier_behind(&self, skip: usize) -> Result<u32, usize>
        ensures { result ≡ number_behind skip (map (λ (a : Adaptor). a.multiplier) (adaptors_of self.now.left ++ adaptors_of self.now.right)) }
    {
        match self.left.multiplier_behind(skip) {
            Ok(m) => Ok(m),
            Err(skip) => self.right.multiplier_behind(skip),
        }
    }

    /// Whether a capacitor or an inductor has this number.
    pub fn has_reactance(&self, number: u32) -> bool
        ensures { result ≡ has_reactance (elements self.now) number }
    {
        has(&self.left, &self.right, Role::Reactance, number)
    }

    /// Whether a resistor or a source has this number.
    pub fn has_absorbing(&self, number: u32) -> bool
        ensures { result ≡ has_absorbing (elements self.now) number }
    {
        has(&self.left, &self.right, Role::Absorbing, number)
    }

    /// What the type of every network keeps.
    pub fn rules(&self)
        ensures { IsNetwork self.now }
    {
        let _ = &self.m;
    }
}
