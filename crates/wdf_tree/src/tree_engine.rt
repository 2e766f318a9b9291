ghost use Rattle.std.specs.Prelude.{◌≡◌, ◌<◌, ◌≤◌, ◌^◌, ◌++◌, pos, replicate, length, unsigned_abs, All, IfOk};
ghost use Rattle.wdf_law.specs.Network.{elements, source_numbers};
ghost use Rattle.wdf_law.specs.Elements.{signed};
ghost use Rattle.wdf_law.specs.OutputRule.{is_flipped};
ghost use Rattle.wdf_law.specs.Trees.{elements_of};
ghost use Rattle.wdf_bounds.specs.WordBound.{word_limit, Fits};
ghost use Rattle.wdf_tree.specs.Engines.{state_of, IsFresh, IsNext, KeepsPlan};
ghost use Rattle.wdf_tree.specs.WaveTrees.{tree_of};

use crate::numbers::{gather, reactance_list, source_list};
use crate::pass::{Waves, pass};
use crate::wave_tree::WaveTree;
use std::alloc::{AllocError, Global};
use std::marker::Model;
use wdf_bounds::Plan;
use wdf_law::{Net, laws};

/// The plain engine of a network: the reference step made runnable, up the trees of adaptors and
/// down again, frame after frame.
///
/// It keeps that the plan fits the network, and that the energy stored in its state is at most
/// what the sources can have sent in so far: the frames done, times the square of the plan's
/// greatest input, times the sum of the sources' conductances. So no operation of 64 bits
/// overflows, and no wave is tested.
#[derive(Drop)]
pub struct TreeEngine {
    net: Net,
    plan: Plan,
    waves: Waves,
    sources: Vec<u32>,
    reactances: Vec<u32>,
    outlet: u32,
    flip: bool,
    state: [i64; 128],
    done: u32,
}

impl Model for TreeEngine {
    ghost use Rattle.wdf_tree.specs.Engines.{EngineValue, engine_code};

    ghost Value = { EngineValue };

    ghost coded = { engine_code };

    ghost use Rattle.std.specs.Prelude.{length, take};
    ghost use Rattle.wdf_law.specs.Network.{elements};
    ghost use Rattle.wdf_tree.specs.Engines.{IsEngine};
    ghost use Rattle.wdf_tree.specs.WaveTrees.{tree_of};

    ghost view = { λ a. record { net = a.net; plan = a.plan; done = a.done; downs = take (length (elements a.net)) a.waves.downs } };

    ghost invariant = { λ a. IsEngine a.net a.plan (tree_of a.waves.left) (tree_of a.waves.right) a.sources.items a.reactances.items a.outlet a.flip a.waves.downs a.state a.done };
}

// A wave, turned round at a leaf that is flipped.
fn turned(wave: i64, flip: bool) -> i64
    requires { unsigned_abs wave ≤ 2 ^ 60 }
    ensures value { result ≡ signed flip wave }
    ensures size { unsigned_abs result ≡ unsigned_abs wave }
{
    if flip { -wave } else { wave }
}

// No wave at any number.
fn silence() -> [i64; 128]
    ensures { result ≡ replicate 128 (pos 0) }
{
    [0; 128]
}

// Whether the leaf with this number is flipped.
#[tactic(auto, using(crate::proofs::PlaceLemmas::flipped_either))]
fn is_flipped(left: &WaveTree, right: &WaveTree, number: u32) -> bool
    ensures { result ≡ is_flipped (elements_of (tree_of left.now) ++ elements_of (tree_of right.now)) number }
{
    left.is_flipped(number) || right.is_flipped(number)
}

impl TreeEngine {
    /// An engine at rest.
    ///
    /// # Errors
    ///
    /// Where no memory is left.
    pub fn new(alloc: Global, net: Net, plan: Plan) -> Result<TreeEngine, AllocError>
        requires { Fits net plan }
        ensures { IfOk result (λ a. IsFresh a net plan) }
    {
        net.rules();
        laws::numbers(&net);
        laws::energy(&net);
        let left = WaveTree::of(alloc, net.left())?;
        let right = WaveTree::of(alloc, net.right())?;
        let sources = source_list(alloc, &net)?;
        let reactances = reactance_list(alloc, &net)?;
        let outlet = net.outlet_element();
        let flip = is_flipped(&left, &right, outlet);
        let silent = silence();
        Ok(TreeEngine {
            net,
            plan,
            waves: Waves {
                left,
                right,
                inputs: silent,
                downs: silent,
            },
            sources,
            reactances,
            outlet,
            flip,
            state: silent,
            done: 0,
        })
    }

    /// Makes the next frame of `samples`, one for each source, source 0 first, and gives its load
    /// wave: the down wave at the outlet, in units of 2^-guard of a sample.
    ///
    /// No sample's magnitude is over the plan's `amp`, and not all of the plan's frames are done.
    pub fn step(&mut self, samples: &[i64]) -> i64
        requires each { length samples.now ≡ length (source_numbers self.old.net) }
        requires amplitude { All (λ s. unsigned_abs s ≤ self.old.plan.amp) samples.now }
        requires frames { self.old.done < self.old.plan.frames }
        ensures next { IsNext self.old samples.now result self.new }
        // The load wave keeps its word.
        ensures word { unsigned_abs result ≤ word_limit self.old.plan }
    {
        pass(
            &self.net,
            &self.plan,
            &self.sources,
            samples,
            &mut self.waves,
            &mut self.done,
        );
        gather(&self.reactances, &self.waves.downs, &mut self.state);
        turned(self.waves.downs[self.outlet as usize], self.flip)
    }

    /// The down waves of the reactances in the last frame, in netlist order; each is 0 before the
    /// first.
    pub fn state(&self) -> &[i64]
        ensures { result.now ≡ state_of self.now }
    {
        &self.state[..self.reactances.len()]
    }

    /// The down waves of all elements in the last frame, in netlist order; each is 0 before the
    /// first.
    pub fn downs(&self) -> &[i64]
        ensures value { result.now ≡ self.now.downs }
        ensures each { length result.now ≡ length (elements self.now.net) }
    {
        &self.waves.downs[..self.net.element_count()]
    }

    /// What the type of every engine keeps: its plan fits its network, no more frames are done than
    /// the plan's, and the energy stored in its state is at most what the sources can have sent in
    /// by them.
    pub fn rules(&self)
        ensures { KeepsPlan self.now }
    {
        let _ = &self.done;
    }

    /// How many frames are done.
    pub fn done(&self) -> u32
        ensures value { result ≡ self.now.done }
        ensures most { result ≤ self.now.plan.frames }
    {
        self.done
    }
}
