//! The plain engines of a netlist's networks.

ghost use Rattle.std.specs.Prelude.{◌≡◌, length};
ghost use Rattle.wdf_law.specs.Network.{source_numbers};
ghost use Rattle.wdf_bounds.specs.Plans.{plan_of};
ghost use Rattle.wdf_bounds.specs.WordBound.{Fits};
ghost use Rattle.wdf_lattice.specs.Runners.{FitsEach};

use super::fast::Fast;
use super::networks::plan;
use super::samples::Samples;
use std::alloc::Global;
use std::process::Abort;
use std::test::Fail;
use wdf_lattice::Networks;
use wdf_law::{Net, Side};
use wdf_tree::TreeEngine;

// The engine of one network, for 1,000 frames of 16 bits.
#[derive(Drop)]
pub(super) struct Waves {
    engine: TreeEngine,
    sources: usize,
    ghost each: { length (source_numbers engine.net) ≡ sources },
    ghost plan: { engine.plan ≡ plan_of 14 4 0 1000 32768 16 },
}

impl Waves {
    fn new(alloc: Global, net: Net) -> Result<Waves, Fail>
        requires { Fits net (plan_of 14 4 0 1000 32768 16) }
    {
        let sources = net.source_count();
        let engine = TreeEngine::new(alloc, net, plan())?;
        Ok(Waves { engine, sources })
    }

    fn step(&mut self, rt: &impl Abort, samples: &Samples) -> i64 {
        let values = samples.values();
        assert!(rt; values.len() == self.sources && self.engine.done() < 1_000);
        self.engine.step(values)
    }
}

/// One run: an engine for a ladder's network, or one for each branch of a lattice.
#[derive(Drop)]
pub(super) enum Plain {
    One(Waves),
    Two(Waves, Waves),
}

impl Plain {
    pub(super) fn new(alloc: Global, networks: Networks) -> Result<Plain, Fail>
        requires { FitsEach networks (plan_of 14 4 0 1000 32768 16) }
    {
        match networks {
            Networks::Ladder(net) => Ok(Plain::One(Waves::new(alloc, net)?)),
            Networks::Lattice { a, b } => {
                Ok(Plain::Two(Waves::new(alloc, a)?, Waves::new(alloc, b)?))
            }
        }
    }

    /// How many samples a frame has.
    pub(super) fn sources(&self) -> usize {
        match self {
            Plain::One(whole) => whole.sources,
            Plain::Two(..) => 1,
        }
    }

    /// The load wave of the next frame; a lattice's is that of branch B less that of branch A.
    pub(super) fn step(&mut self, rt: &impl Abort, samples: &Samples) -> i64 {
        match self {
            Plain::One(whole) => whole.step(rt, samples),
            Plain::Two(a, b) => {
                let less = a.step(rt, samples);
                b.step(rt, samples).wrapping_sub(less)
            }
        }
    }

    /// Whether the down slot of each element holds what it was sent last.
    pub(super) fn is_shown(&self, fast: &Fast, run: usize) -> bool {
        match self {
            Plain::One(whole) => fast.sent(Side::Whole, run, whole.engine.downs()),
            Plain::Two(a, b) => {
                fast.sent(Side::A, run, a.engine.downs())
                    && fast.sent(Side::B, run, b.engine.downs())
            }
        }
    }
}
