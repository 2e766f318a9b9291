ghost use Rattle.std.specs.Prelude.{◌≡◌, ◌-◌, ◌^◌, ◌≤◌, ◌↔◌, IsSome, IfSome, IsTrue};
ghost use Rattle.wdf_bounds.specs.Plans.{IsPlan, plan_of, is_sample_width};

use std::marker::Model;

/// The plan of a run: the width of the multipliers, how samples enter and leave, and the most that
/// they may be.
///
/// It keeps that `k` is in 1..=20, `guard` and `shift` are at most 16, `frames` is at least 1,
/// `bits` is 8, 16, 24 or 32, and `amp` is in `1..=2^(bits-1)`.
#[derive(Clone, Copy, Debug, PartialEq, Eq)]
pub struct Plan {
    k: u8,
    guard: u8,
    shift: u8,
    frames: u32,
    amp: u32,
    bits: u8,
}

impl Model for Plan {
    ghost use Rattle.wdf_bounds.specs.Plans.{PlanOf, IsPlan, plan_of};

    ghost Value = { PlanOf };

    ghost view = { λ p. plan_of p.k p.guard p.shift p.frames p.amp p.bits };

    ghost invariant = { λ p. IsPlan (plan_of p.k p.guard p.shift p.frames p.amp p.bits) };

    ghost inverse = { λ p. record { k = p.k; guard = p.guard; shift = p.shift; frames = p.frames; amp = p.amp; bits = p.bits } };
}

impl Plan {
    /// A plan of multipliers of `k` bits, for at most `frames` frames of samples of `bits` bits and
    /// of at most `amp` in magnitude, which enter with `guard` more bits and leave with `shift`
    /// fewer.
    ///
    /// It is `None` exactly where one of these is out of the range that a plan keeps.
    pub fn new(k: u8, guard: u8, shift: u8, frames: u32, amp: u32, bits: u8) -> Option<Plan>
        ensures some { IsSome result ↔ IsPlan (plan_of k guard shift frames amp bits) }
        ensures value { IfSome result (λ plan. plan ≡ plan_of k guard shift frames amp bits) }
    {
        if k < 1 || k > 20 || guard > 16 || shift > 16 || frames < 1 {
            return None;
        }
        if bits != 8 && bits != 16 && bits != 24 && bits != 32 {
            return None;
        }
        if amp < 1 || amp > 1 << (bits - 1) {
            return None;
        }
        Some(Plan {
            k,
            guard,
            shift,
            frames,
            amp,
            bits,
        })
    }

    /// The width of the multipliers, in bits.
    pub fn k(&self) -> u8
        ensures value { result ≡ self.now.k }
        ensures range { (1 ≤ result) × (result ≤ 20) }
    {
        self.k
    }

    /// How many bits a sample gains as it enters.
    pub fn guard(&self) -> u8
        ensures value { result ≡ self.now.guard }
        ensures range { result ≤ 16 }
    {
        self.guard
    }

    /// How many bits more than those an output sample loses.
    pub fn shift(&self) -> u8
        ensures value { result ≡ self.now.shift }
        ensures range { result ≤ 16 }
    {
        self.shift
    }

    /// The most frames of a run.
    pub fn frames(&self) -> u32
        ensures value { result ≡ self.now.frames }
        ensures range { 1 ≤ result }
    {
        self.frames
    }

    /// The greatest magnitude of a sample.
    pub fn amp(&self) -> u32
        ensures value { result ≡ self.now.amp }
        ensures range { (1 ≤ result) × (result ≤ 2 ^ (self.now.bits - 1)) }
    {
        self.amp
    }

    /// The width of a sample, in bits.
    pub fn bits(&self) -> u8
        ensures value { result ≡ self.now.bits }
        ensures range { IsTrue (is_sample_width result) }
    {
        self.bits
    }

    /// What the type of every plan keeps.
    pub fn rules(&self)
        ensures { IsPlan self.now }
    {
        let _ = &self.k;
    }
}
