//! The runner of the fast engine.

ghost use Rattle.std.specs.Prelude.{◌≡◌, ◌+◌, ◌*◌, ◌≤◌, length, unsigned_abs, All};
ghost use Rattle.wdf_bounds.specs.Plans.{plan_of};
ghost use Rattle.wdf_lattice.specs.Runners.{DriveAll, FitsEach};
ghost use Rattle.wdf_lattice.specs.Sides.{sources_driven};

use super::networks::plan;
use super::samples::Samples;
use std::alloc::Global;
use std::process::Abort;
use std::test::Fail;
use wdf_lattice::{Networks, Runner};
use wdf_law::Side;
use wdf_sched::Op;

/// The runs of a netlist's networks, for 1,000 frames of 16 bits.
#[derive(Drop)]
pub(super) struct Fast {
    runner: Runner,
    runs: u8,
    sources: u8,
    ghost each: { runner.runs ≡ runs },
    ghost driven: { sources_driven runner.networks ≡ sources },
    ghost plan: { runner.plan ≡ plan_of 14 4 0 1000 32768 16 },
}

// A block of so many frames.
fn block(runner: &mut Runner, count: usize, runs: usize, samples: &[i64], waves: &mut [i64])
    requires runs { runs ≡ runner.old.runs }
    requires waves { length waves.old ≡ count * runs }
    requires frames { length samples.now ≡ count * (runs * sources_driven runner.old.networks) }
    requires left { runner.old.done + count ≤ runner.old.plan.frames }
    requires amplitude { All (λ s. unsigned_abs s ≤ runner.old.plan.amp) samples.now }
    ensures networks { runner.new.networks ≡ runner.old.networks }
    ensures plan { runner.new.plan ≡ runner.old.plan }
    ensures runs { runner.new.runs ≡ runner.old.runs }
{
    runner.block(samples, waves);
}

impl Fast {
    fn new(rt: &impl Abort, alloc: Global, networks: Networks, runs: u8) -> Result<Fast, Fail>
        requires fits { FitsEach networks (plan_of 14 4 0 1000 32768 16) }
        requires driven { DriveAll networks 1 }
    {
        let sources = networks.sources_driven() as u8;
        assert!(rt; 1 <= runs && runs <= 8 && (sources == 1 || runs == 1));
        let runner = Runner::new(alloc, networks, plan(), usize::from(runs))?;
        Ok(Fast {
            runner,
            runs,
            sources,
        })
    }

    /// So many runs at rest; a network of several sources has one. They stand in a box, since they are
    /// large.
    pub(super) fn boxed(
        rt: &impl Abort,
        alloc: Global,
        networks: Networks,
        runs: u8,
    ) -> Result<Box<Fast>, Fail>
        requires fits { FitsEach networks (plan_of 14 4 0 1000 32768 16) }
        requires driven { DriveAll networks 1 }
    {
        let fast = Fast::new(rt, alloc, networks, runs)?;
        Ok(Box::new(alloc, fast)?)
    }

    /// The load waves of the next frames, of which there are so many.
    pub(super) fn block(
        &mut self,
        rt: &impl Abort,
        alloc: Global,
        count: usize,
        samples: &Samples,
    ) -> Result<Vec<i64>, Fail> {
        let values = samples.values();
        let done = self.runner.done() as usize;
        assert!(rt; count <= 1_000 && done + count <= 1_000);
        let runs = usize::from(self.runs);
        assert!(rt; values.len() == count * (runs * usize::from(self.sources)));
        let mut waves = vec![in alloc; 0; count * runs]?;
        block(&mut self.runner, count, runs, values, &mut waves);
        Ok(waves)
    }

    /// Whether the down slots of a side's elements hold these waves.
    pub(super) fn sent(&self, side: Side, run: usize, downs: &[i64]) -> bool {
        let Some(schedule) = self.runner.schedule(side) else {
            return false;
        };
        if schedule.net().element_count() != downs.len() {
            return false;
        }
        for (element, down) in downs.iter().enumerate() {
            let slot = schedule.leaf_slots(element as u32).down;
            if self.runner.slot(side, run, slot) != Some(*down) {
                return false;
            }
        }
        true
    }

    /// What the first parallel junction of a ladder reflects before it is truncated, in units of 1/q.
    pub(super) fn raw(&self) -> Option<i64> {
        for op in self.runner.schedule(Side::Whole)?.ops() {
            if let Op::UpParallel { raw, .. } = op {
                return self.runner.slot(Side::Whole, 0, *raw);
            }
        }
        None
    }

    /// How many frames are done.
    pub(super) fn done(&self) -> u32 {
        self.runner.done()
    }
}
