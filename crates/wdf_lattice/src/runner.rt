ghost use Rattle.std.specs.Prelude.{◌≡◌, ℕ, ◌+◌, ◌*◌, ◌<◌, ◌≤◌, length, option_map, unsigned_abs, All, IfOk, Some};
ghost use Rattle.std.specs.Option.{option_copied};
ghost use Rattle.wdf_law.specs.Network.{unit_of};
ghost use Rattle.wdf_sched.specs.Operations.{HoldAll};
ghost use Rattle.wdf_sched.specs.Schedules.{ScheduleValue};
ghost use Rattle.wdf_lattice.specs.Sides.{network_at, sources_driven};
ghost use Rattle.wdf_lattice.specs.Waves.{frames_of};
ghost use Rattle.wdf_lattice.specs.Runners.{AreSilent, DriveAll, FitsEach, IsBegun, IsBlock, NotesOn, RunsOn, ShowLast, accounts_of, schedule_of, slot_with, slots_of, states_of, totals_by};

use crate::Networks;
use crate::branches::room_of;
use crate::engines::Engines;
use std::alloc::{AllocError, Global};
use std::marker::Model;
use wdf_bounds::Plan;
use wdf_energy::Totals;
use wdf_law::Side;
use wdf_sched::Schedule;

/// The runs of a netlist's networks over whole frames of samples, from rest and however frames are
/// cut into blocks: with one source a run for each channel, each with states of its own, and with
/// several one run that is driven by all channels. A ledger tells where the energy of each went.
///
/// It keeps that there are 1 to 8 runs, that they drive every source of its networks, that its plan
/// fits them and no more frames are done than it has, that the accounts hold all frames done, and
/// that the slots of each run hold what each operation of its schedule writes.
#[derive(Drop)]
pub struct Runner {
    networks: Networks,
    plan: Plan,
    runs: usize,
    engines: Engines,
    // Room for the load waves of a lattice's branch A in a piece of a block.
    room: Vec<i64>,
}

impl Model for Runner {
    ghost use Rattle.wdf_lattice.specs.Runners.{RunnerValue, runner_code};

    ghost Value = { RunnerValue };

    ghost coded = { runner_code };

    ghost use Rattle.wdf_lattice.specs.RunSides.{IsRunner, done_by};

    ghost view = { λ r. record { networks = r.networks; plan = r.plan; runs = r.runs; done = done_by r.engines; engines = r.engines } };

    ghost invariant = { λ r. IsRunner r.networks r.plan r.runs r.engines r.room.items };
}

impl Runner {
    /// Runs at rest: one for each of 1 to 8 channels where the networks have one source each, and
    /// just one where a ladder has several. A branch of a lattice has one source. The plan fits
    /// each network.
    ///
    /// # Errors
    ///
    /// Where no memory is left.
    pub fn new(
        alloc: Global,
        networks: Networks,
        plan: Plan,
        runs: usize,
    ) -> Result<Runner, AllocError>
        requires plan { FitsEach networks plan }
        requires runs { (1 ≤ runs) × (runs ≤ 8) }
        requires driven { DriveAll networks runs }
        ensures begun { IfOk result (λ r. IsBegun r networks plan runs) }
        ensures silent { IfOk result AreSilent }
    {
        let engines = Engines::new(alloc, &networks, plan, runs)?;
        let room = room_of(alloc, &networks, runs)?;
        Ok(Runner {
            networks,
            plan,
            runs,
            engines,
            room,
        })
    }

    /// Makes the next frames, and gives the load wave of each run in each frame, in units of
    /// 2^-guard of a sample; a lattice's is that at branch B's source less that at branch A's.
    ///
    /// `input` has whole frames of samples, in each frame those of one run behind those of the
    /// other, one for each source; `output` has room for a load wave of each run in each frame. No
    /// sample's magnitude is over the plan's `amp`, and there are no more frames than the plan has
    /// left. At the slots of each element are then the waves of the last
    /// frame.
    pub fn block(&mut self, input: &[i64], output: &mut [i64])
        requires frames { IsBlock self.old.runs (sources_driven self.old.networks) self.old.done self.old.plan.frames input.now output.old }
        requires amplitude { All (λ s. unsigned_abs s ≤ self.old.plan.amp) input.now }
        ensures on { RunsOn self.old.networks self.old.plan.guard self.old.runs (states_of self.old) (states_of self.new) input.now output.new }
        ensures accounts { NotesOn self.old.networks self.old.plan.guard self.old.runs (states_of self.old) (accounts_of self.old) (accounts_of self.new) input.now }
        ensures done { (count : ℕ) → length output.old ≡ count * self.old.runs → self.new.done ≡ self.old.done + count }
        ensures leaves { ShowLast self.old.networks self.old.plan.guard self.old.runs (states_of self.old) self.new.engines (frames_of self.old.networks self.old.runs input.now) }
        ensures still { length output.old ≡ 0 → (side : Side) (run slot : ℕ) → slots_of self.new side run slot ≡ slots_of self.old side run slot }
        ensures schedules { (side : Side) → schedule_of self.new side ≡ schedule_of self.old side }
        ensures networks { self.new.networks ≡ self.old.networks }
        ensures plan { self.new.plan ≡ self.old.plan }
        ensures runs { self.new.runs ≡ self.old.runs }
    {
        let _ = self.networks.sources_driven();
        self.engines.block(self.runs, &mut self.room, input, output);
    }

    /// Where the energy of a run's frames went, in the network of a side; None exactly where the
    /// form has no such side, or there is no such run.
    pub fn totals(&self, side: Side, run: usize) -> Option<Totals>
        ensures { result ≡ totals_by self.now side run }
    {
        if run >= self.runs {
            return None;
        }
        let side = self.engines.side(side)?;
        Some(side.totals(&self.plan, run))
    }

    /// The schedule of a side, whose network is that side's; None exactly where the form has no
    /// such side.
    pub fn schedule(&self, side: Side) -> Option<&Schedule>
        ensures schedule { option_copied result ≡ schedule_of self.now side }
        ensures network { option_map (λ s. s.net) (schedule_of self.now side) ≡ network_at self.now.networks side }
    {
        let side = self.engines.side(side)?;
        Some(side.engine.schedule())
    }

    /// What a slot of a side's schedule holds in a run; None exactly where the form has no such
    /// side, or there is no such run or slot. At all times the slots of a run hold what each
    /// operation of the schedule writes.
    pub fn slot(&self, side: Side, run: usize, slot: u16) -> Option<i64>
        ensures value { result ≡ slot_with self.now side run slot }
        ensures rows { (s : ScheduleValue) → schedule_of self.now side ≡ Some s → run < self.now.runs → HoldAll (unit_of s.net) (slots_of self.now side run) s.ops }
    {
        if run >= self.runs {
            return None;
        }
        let side = self.engines.side(side)?;
        side.slot(run, slot)
    }

    /// The networks that run.
    pub fn networks(&self) -> &Networks
        ensures { result.now ≡ self.now.networks }
    {
        &self.networks
    }

    /// How many frames are done.
    pub fn done(&self) -> u32
        ensures value { result ≡ self.now.done }
        ensures most { result ≤ self.now.plan.frames }
    {
        self.engines.done()
    }
}
