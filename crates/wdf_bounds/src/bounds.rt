ghost use Rattle.std.specs.Prelude.{◌≡◌, ◌*◌, ◌<◌, ◌≤◌, ◌^◌, List, OnOk};
ghost use Rattle.wdf_quant.specs.PortBound.{Encloses, walk};
ghost use Rattle.wdf_bounds.specs.Plans.{greatest_input};
ghost use Rattle.wdf_bounds.specs.WordBound.{BoundsMeet, Fits, bound, greatest_of, root_up, word_limit};

use crate::{BoundFault, Plan};
use std::alloc::Global;
use std::marker::Model;
use wdf_frac::isqrt_up;
use wdf_law::Net;
use wdf_quant::Ratios;

/// The bounds of the words of a network's ports, in the order of the walk of its [`Ratios`].
#[derive(Drop)]
pub struct Bounds {
    words: Vec<u64>,
}

impl Model for Bounds {
    ghost use Rattle.std.specs.Prelude.{List, ℕ};

    ghost Value = { List ℕ };

    ghost view = { λ b. b.words.items };
}

impl Bounds {
    /// The bound of each port, in the order of the walk away from the first source.
    pub fn words(&self) -> &[u64]
        ensures { result.now ≡ self.now }
    {
        &self.words
    }

    /// The greatest of them.
    #[tactic(auto, using(crate::proofs::FitLemmas::greatest_more))]
    pub fn largest(&self) -> u64
        ensures { result ≡ greatest_of self.now }
    {
        let mut largest = 0;
        for word in &self.words {
            largest = largest.max(*word);
        }
        largest
    }
}

/// Whether the plan fits the network, whose numbers `ratios` are: the bound of each port.
///
/// The bound of a port with the number p is amp·2^guard·a·b / 2^20, rounded up, with a and b the
/// roots of the plan's frames and of p, rounded up. `ratios` are those of
/// [`enclose`](wdf_quant::enclose), and the widths k of the network and of the plan are equal.
///
/// # Errors
///
/// [`BoundFault::Word`] exactly where a bound exceeds `2^(60-k)`: the first in the order of the
/// walk.
pub fn plan_check(
    alloc: Global,
    net: &Net,
    ratios: &Ratios,
    plan: &Plan,
) -> Result<Bounds, BoundFault>
    requires ratios { Encloses net.now (Ok ratios.now) }
    requires width { plan.now.k ≡ net.now.k }
    ensures answer { BoundsMeet plan.now (walk net.now) result }
    ensures fits { OnOk result (Fits net.now plan.now) }
{
    // The network is there for the contract alone: its ports and their numbers are the list's.
    let _ = net;
    let limit = limit_of(plan);
    let scale = scale_of(plan);
    let mut words = Vec::new(alloc);
    'ports: for port in ratios.list() {
        let word = bound_of(plan, scale, port.ratio);
        if word > u128::from(limit) {
            return Err(BoundFault::Word {
                element: port.elem,
                need: word,
                limit,
            });
        }
        words.push(word as u64)?;
    }
    Ok(Bounds { words })
}

// The limit of a word.
fn limit_of(plan: &Plan) -> u64
    ensures { result ≡ word_limit plan.now }
{
    1 << (60 - plan.k())
}

// The greatest input times the root of the frames.
fn scale_of(plan: &Plan) -> u128
    ensures value { result ≡ greatest_input plan.now * root_up plan.now.frames }
    ensures fits { result ≤ 2 ^ 64 }
{
    let input = u128::from(plan.amp()) << plan.guard();
    input * root(u128::from(plan.frames()), 16)
}

// The bound of a port with the number `p`.
fn bound_of(plan: &Plan, scale: u128, p: u64) -> u128
    requires scale { scale ≡ greatest_input plan.now * root_up plan.now.frames }
    requires fits { scale ≤ 2 ^ 64 }
    ensures { result ≡ bound plan.now p }
{
    (scale * root(u128::from(p), 32)).div_ceil(1 << 20)
}

// The root of `n`, rounded up.
#[tactic(auto, using(crate::proofs::Roots::is_root))]
fn root(n: u128, bits: u32) -> u128
    requires few { bits ≤ 64 }
    requires fits { n ≤ 2 ^ bits * 2 ^ bits }
    ensures value { result ≡ root_up n }
    ensures fits { result ≤ 2 ^ bits }
{
    isqrt_up(n)
}
