// All runs of an engine.
ghost use Rattle.std.specs.Prelude.{◌≡◌, ℕ, ◌+◌, ◌<◌, ◌≤◌, pos, length, IfOk};
ghost use Rattle.wdf_loop.specs.AllRuns.{AreAllSilent, AreAt, HaveAllGone, HavePlace, HoldAccounts, run_count, value_for};
ghost use Rattle.wdf_loop.specs.Settings.{IsPiece, IsSetting};

use crate::place::Place;
use crate::run_group::RunGroup;
use crate::setting::Setting;
use std::alloc::{AllocError, Global};
use wdf_energy::Ledger;

/// Runs in up to three groups, the later ones numbered on behind the earlier.
#[derive(Drop)]
pub(crate) struct Groups {
    pub(crate) first: RunGroup,
    pub(crate) second: RunGroup,
    pub(crate) third: RunGroup,
}

impl Groups {
    /// So many runs at rest.
    ///
    /// # Errors
    ///
    /// Where no memory is left.
    pub(crate) fn at_rest(
        alloc: Global,
        setting: &Setting,
        runs: usize,
    ) -> Result<Groups, AllocError>
        requires few { runs ≤ 8 }
        requires setting { IsSetting setting.now }
        ensures count { IfOk result (λ g. run_count g ≡ runs) }
        ensures at { IfOk result (λ g. AreAt setting.now 0 g) }
        ensures silent { IfOk result (λ g. AreAllSilent setting.now g) }
    {
        let first = RunGroup::at_rest(alloc, setting, runs)?;
        let rest = runs - first.width();
        let second = RunGroup::at_rest(alloc, setting, rest)?;
        let third = RunGroup::at_rest(alloc, setting, rest - second.width())?;
        Ok(Groups {
            first,
            second,
            third,
        })
    }

    /// How many runs there are.
    pub(crate) fn count(&self) -> usize
        ensures value { result ≡ run_count self.now }
        ensures few { result ≤ 24 }
    {
        self.first.width() + self.second.width() + self.third.width()
    }

    /// The number at a place of the cells of a run.
    pub(crate) fn value(&self, run: usize, place: Place) -> i64
        requires run { run < run_count self.now }
        requires place { HavePlace place self.now }
        ensures { result ≡ value_for self.now run place }
    {
        let first = self.first.width();
        if run < first {
            return self.first.value(run, place);
        }
        let second = self.second.width();
        if run - first < second {
            return self.second.value(run - first, place);
        }
        self.third.value(run - first - second, place)
    }

    /// The next frames of all runs.
    pub(crate) fn block(
        &mut self,
        setting: &Setting,
        done: u32,
        count: usize,
        samples: &[i64],
        output: &mut [i64],
        ledger: &mut Ledger,
    )
        requires setting { IsSetting setting.now }
        requires piece { IsPiece setting.now done (run_count self.old) count samples.now output.old }
        requires at { AreAt setting.now done self.old }
        requires ledger { HoldAccounts setting.now done self.old ledger.old }
        ensures count { run_count self.new ≡ run_count self.old }
        ensures at { AreAt setting.now (done + count) self.new }
        ensures gone { HaveAllGone setting.now done count samples.now output.new self.old self.new ledger.old ledger.new }
    {
        let all = self.count();
        let first = self.first.width();
        let second = first + self.second.width();
        self.first
            .block(setting, done, all, 0, count, samples, output, ledger);
        self.second
            .block(setting, done, all, first, count, samples, output, ledger);
        self.third
            .block(setting, done, all, second, count, samples, output, ledger);
    }
}
