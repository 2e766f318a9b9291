// The runs of one network.
ghost use Rattle.std.specs.Prelude.{◌≡◌, ℕ, ◌*◌, ◌<◌, ◌≤◌, length, unsigned_abs, All, IfOk, Some};
ghost use Rattle.wdf_law.specs.Network.{source_numbers, unit_of};
ghost use Rattle.wdf_bounds.specs.WordBound.{Fits};
ghost use Rattle.wdf_quant.specs.PortBound.{HasLeafNumbers};
ghost use Rattle.wdf_energy.specs.Accounts.{account_at, totals_of};
ghost use Rattle.wdf_sched.specs.Operations.{HoldAll};
ghost use Rattle.wdf_loop.specs.Engines.{HoldsLedger, runs_of, slot_of};
ghost use Rattle.wdf_lattice.specs.Runners.{IsBlock, slot_among};
ghost use Rattle.wdf_lattice.specs.RunSides.{AreSmall, GoesOver, IsNewSide, KeepsSide};

use std::alloc::{AllocError, Global};
use wdf_bounds::Plan;
use wdf_energy::laws::frames_followed;
use wdf_energy::{Ledger, Totals};
use wdf_law::Net;
use wdf_law::laws::one_step;
use wdf_loop::Engine;
use wdf_quant::laws::whole_walk;
use wdf_quant::{RatioFault, Ratios, enclose};
use wdf_sched::compile;

/// The runs of one network: their engine, and the ledger that notes what it makes.
#[derive(Drop)]
pub(crate) struct SideRuns {
    pub(crate) engine: Engine,
    pub(crate) ledger: Ledger,
}

// The numbers of a network's ports, none of which is too wide where a plan fits.
fn ratios_of(alloc: Global, net: &Net, plan: &Plan) -> Result<Ratios, AllocError>
    requires { Fits net.now plan.now }
    ensures { IfOk result (HasLeafNumbers net.now) }
{
    whole_walk(net);
    let _ = plan;
    match enclose(alloc, net) {
        Ok(ratios) => Ok(ratios),
        Err(RatioFault::NoMemory) => Err(AllocError),
        Err(RatioFault::Wide { .. }) => unreachable!(),
    }
}

impl SideRuns {
    /// The runs of a network at rest.
    pub(crate) fn new(
        alloc: Global,
        net: &Net,
        plan: Plan,
        runs: usize,
    ) -> Result<SideRuns, AllocError>
        requires plan { Fits net.now plan }
        requires runs { (1 ≤ runs) × (runs ≤ 8) }
        ensures { IfOk result (IsNewSide net.now plan runs) }
    {
        frames_followed(net, &plan);
        let ratios = ratios_of(alloc, net, &plan)?;
        let ledger = Ledger::new(alloc, net, &ratios, runs)?;
        let copy = net.copy(alloc)?;
        let schedule = compile(alloc, copy)?;
        let engine = Engine::new(alloc, schedule, plan, runs)?;
        Ok(SideRuns { engine, ledger })
    }

    /// Makes the next frames of all runs, and notes them. Where there is none, the slots stay as they
    /// are.
    pub(crate) fn block(&mut self, input: &[i64], output: &mut [i64])
        requires some { 1 ≤ runs_of self.old.engine }
        requires held { HoldsLedger self.old.engine self.old.ledger }
        requires frames { IsBlock (runs_of self.old.engine) (length (source_numbers self.old.engine.schedule.net)) self.old.engine.done self.old.engine.plan.frames input.now output.old }
        requires amplitude { All (λ s. unsigned_abs s ≤ self.old.engine.plan.amp) input.now }
        ensures kept { (count : ℕ) → length output.old ≡ count * runs_of self.old.engine → KeepsSide count self.old self.new }
        ensures over { (count : ℕ) → length output.old ≡ count * runs_of self.old.engine → GoesOver count input.now output.new self.old self.new }
        ensures small { AreSmall output.new }
    {
        if output.is_empty() {
            return;
        }
        one_step(self.engine.schedule().net());
        self.engine.block(input, output, &mut self.ledger);
    }

    /// Where the energy of a run's frames went.
    pub(crate) fn totals(&self, plan: &Plan, run: usize) -> Totals
        requires plan { plan.now ≡ self.now.engine.plan }
        requires held { HoldsLedger self.now.engine self.now.ledger }
        requires run { run < runs_of self.now.engine }
        ensures { result ≡ totals_of self.now.engine.schedule.net (account_at self.now.ledger run) }
    {
        self.engine.rules();
        frames_followed(self.engine.schedule().net(), plan);
        self.ledger.totals(run)
    }

    /// What a slot of the schedule holds in a run, if there is such a slot. The slots hold what each
    /// operation writes.
    pub(crate) fn slot(&self, run: usize, slot: u16) -> Option<i64>
        requires { run < runs_of self.now.engine }
        ensures value { result ≡ slot_among (Some self.now.engine.schedule) (slot_of self.now.engine run) slot }
        ensures rows { HoldAll (unit_of self.now.engine.schedule.net) (slot_of self.now.engine run) self.now.engine.schedule.ops }
    {
        self.engine.rules();
        if usize::from(slot) < self.engine.schedule().slot_count() {
            Some(self.engine.slot(run, slot))
        } else {
            None
        }
    }
}
