// The runs of all networks.
ghost use Rattle.std.specs.Prelude.{◌≡◌, ℕ, ◌*◌, ◌≤◌, length, unsigned_abs, All, IfOk};
ghost use Rattle.std.specs.Option.{option_copied};
ghost use Rattle.wdf_lattice.specs.Sides.{sources_driven};
ghost use Rattle.wdf_lattice.specs.Runners.{DriveAll, FitsEach, IsBlock, side_at};
ghost use Rattle.wdf_lattice.specs.RunSides.{AreAlike, AreNewSides, GoOn, IsRoomFor, done_by, networks_by, plan_by, runs_by};

use crate::Networks;
use crate::branches::block_of_branches;
use crate::side_runs::SideRuns;
use std::alloc::{AllocError, Global};
use wdf_bounds::Plan;
use wdf_law::Side;

/// The runs of all networks, by the networks' form.
#[derive(Drop)]
pub(crate) enum Engines {
    /// Those of a ladder's network.
    One(SideRuns),
    /// Those of a lattice's branches, A and B.
    Two(SideRuns, SideRuns),
}

impl Engines {
    /// The runs of these networks at rest.
    pub(crate) fn new(
        alloc: Global,
        networks: &Networks,
        plan: Plan,
        runs: usize,
    ) -> Result<Engines, AllocError>
        requires plan { FitsEach networks.now plan }
        requires runs { (1 ≤ runs) × (runs ≤ 8) }
        ensures { IfOk result (AreNewSides networks.now plan runs) }
    {
        match networks {
            Networks::Ladder(net) => {
                let first = SideRuns::new(alloc, net, plan, runs)?;
                Ok(Engines::One(first))
            }
            Networks::Lattice { a, b } => {
                let first = SideRuns::new(alloc, a, plan, runs)?;
                let second = SideRuns::new(alloc, b, plan, runs)?;
                Ok(Engines::Two(first, second))
            }
        }
    }

    /// The runs of a side; None exactly where the form has no such side.
    pub(crate) fn side(&self, side: Side) -> Option<&SideRuns>
        ensures { option_copied result ≡ side_at self.now side }
    {
        match (self, side) {
            (Engines::One(first), Side::Whole) => Some(first),
            (Engines::Two(first, _), Side::A) => Some(first),
            (Engines::Two(_, second), Side::B) => Some(second),
            _ => None,
        }
    }

    /// How many frames are done.
    pub(crate) fn done(&self) -> u32
        ensures value { result ≡ done_by self.now }
        ensures most { result ≤ (plan_by self.now).frames }
    {
        match self {
            Engines::One(first) => first.engine.done(),
            Engines::Two(first, _) => first.engine.done(),
        }
    }

    /// Makes the next frames of all runs, and notes them. `room` is for the load waves of a
    /// lattice's branch A.
    pub(crate) fn block(&mut self, runs: usize, room: &mut [i64], input: &[i64], output: &mut [i64])
        requires some { 1 ≤ runs }
        requires runs { runs ≡ runs_by self.old }
        requires alike { AreAlike self.old }
        requires driven { DriveAll (networks_by self.old) runs }
        requires room { IsRoomFor (networks_by self.old) runs room.old }
        requires frames { IsBlock runs (sources_driven (networks_by self.old)) (done_by self.old) (plan_by self.old).frames input.now output.old }
        requires amplitude { All (λ s. unsigned_abs s ≤ (plan_by self.old).amp) input.now }
        ensures { (count : ℕ) → length output.old ≡ count * runs → GoOn count input.now output.new self.old self.new }
    {
        match self {
            Engines::One(first) => first.block(input, output),
            Engines::Two(first, second) => {
                block_of_branches(first, second, runs, room, input, output)
            }
        }
    }
}
