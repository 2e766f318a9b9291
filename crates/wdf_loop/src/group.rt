// A block of frames of some of an engine's runs.
ghost use Rattle.std.specs.Prelude.{◌≡◌, ℕ, ◌+◌, ◌*◌, ◌<◌, ◌≤◌, ◌^◌, ◌⊎◌, pos, unsigned_abs, length, map, slice_index_or, All};
ghost use Rattle.wdf_bounds.specs.WordBound.{Fits};
ghost use Rattle.wdf_energy.specs.Accounts.{account_at};
ghost use Rattle.wdf_loop.specs.Advances.{AllAreAt, root_of};
ghost use Rattle.wdf_loop.specs.RunAccounts.{HoldRuns, KeepsAccounts};
ghost use Rattle.wdf_loop.specs.Layouts.{IsLayout};
ghost use Rattle.wdf_loop.specs.Parts.{HasParts, IsOutlet};
ghost use Rattle.wdf_loop.specs.RunFrames.{RunsOn};
ghost use Rattle.wdf_loop.specs.SlotValues.{sent_by, state_by, value_in};

use crate::advance::advance;
use crate::any_row::AnyRow;
use crate::layout::Layout;
use crate::notes::note_runs;
use crate::outlet::Outlet;
use crate::outputs::give_block;
use crate::parts::Parts;
use crate::samples::scale_block;
use wdf_bounds::Plan;
use wdf_energy::Ledger;
use wdf_sched::Schedule;

/// The next `count` frames of the runs from `first` on, of `all` runs, when `done` are done; the
/// ledger's accounts of these runs have each noted. `samples` has the whole frames, in each those of
/// one run behind those of the other, one for each source; `output` has a place for a load wave of
/// each run in each frame. `values` and `waves` are room for the frames' values and the waves that
/// resistors and sources are sent, a row for each of these in each frame.
pub(crate) fn group_block<const C: usize, R: AnyRow<C>>(
    schedule: &Schedule,
    plan: &Plan,
    layout: &Layout,
    parts: &Parts,
    outlet: Outlet,
    cells: &mut [R],
    done: u32,
    all: usize,
    first: usize,
    count: usize,
    samples: &[i64],
    values: &mut [[i64; C]],
    waves: &mut [[i64; C]],
    output: &mut [i64],
    ledger: &mut Ledger,
)
    requires some { 1 ≤ C }
    requires runs { C ≤ 8 }
    requires within { first + C ≤ all }
    requires fits { Fits schedule.now.net plan.now }
    requires layout { IsLayout schedule.now layout.now.shares.items layout.now.marks.items layout.now.chains.items layout.now.feeds.items }
    requires stages { length cells.old ≡ length layout.now.shares.items }
    requires parts { HasParts schedule.now (root_of layout.now.shares.items) layout.now.marks.items parts.now.every.items parts.now.absorbing.items }
    requires outlet { IsOutlet schedule.now.net outlet }
    requires frame { 1 ≤ count }
    requires few { count * all < 2 ^ 60 }
    requires each { length samples.now ≡ count * all * length layout.now.feeds.items }
    requires amplitude { All (λ s. unsigned_abs s ≤ plan.now.amp) samples.now }
    requires values { length values.old ≡ count * length layout.now.feeds.items }
    requires waves { length waves.old ≡ count * length parts.now.absorbing.items }
    requires places { length output.old ≡ count * all }
    requires frames { done + count ≤ plan.now.frames }
    requires at { AllAreAt C schedule.now plan.now done layout.now.shares.items layout.now.marks.items layout.now.chains.items layout.now.feeds.items (map R.cells cells.old) }
    requires ledger { HoldRuns C first schedule.now plan.now done layout.now.shares.items layout.now.marks.items (map R.cells cells.old) ledger.old }
    ensures at { AllAreAt C schedule.now plan.now (done + count) layout.now.shares.items layout.now.marks.items layout.now.chains.items layout.now.feeds.items (map R.cells cells.new) }
    ensures on { (c : ℕ) → c < C → RunsOn schedule.now.net plan.now all count samples.now output.new (first + c)
        (state_by schedule.now layout.now.shares.items layout.now.marks.items (map R.cells cells.old) c) (state_by schedule.now layout.now.shares.items layout.now.marks.items (map R.cells cells.new) c)
        (value_in layout.now.shares.items layout.now.marks.items (map R.cells cells.new) c) (sent_by schedule.now layout.now.shares.items layout.now.marks.items (map R.cells cells.new) c) (account_at ledger.old (first + c)) (account_at ledger.new (first + c)) }
    ensures others { (f run : ℕ) → run < all → (run < first) ⊎ (first + C ≤ run)
        → slice_index_or output.new (f * all + run) (pos 0) ≡ slice_index_or output.old (f * all + run) (pos 0) }
    ensures ledger { HoldRuns C first schedule.now plan.now (done + count) layout.now.shares.items layout.now.marks.items (map R.cells cells.new) ledger.new }
    ensures accounts { KeepsAccounts C first ledger.old ledger.new }
{
    schedule.rules();
    plan.rules();
    let net = schedule.net();
    net.rules();
    wdf_law::laws::numbers(net);
    wdf_sched::laws::values(schedule);
    wdf_energy::laws::frames_followed(net, plan);
    wdf_energy::laws::blocks_followed(net, plan);
    let guard = plan.guard();
    scale_block::<C>(
        samples,
        all,
        first,
        layout.feeds.len(),
        guard,
        count,
        values,
    );
    advance::<C, R>(
        schedule,
        plan,
        layout,
        &parts.absorbing,
        cells,
        count,
        values,
        waves,
        done,
    );
    give_block::<C>(
        waves,
        parts.absorbing.len(),
        outlet,
        count,
        all,
        first,
        output,
    );
    note_runs::<C, R>(&parts.every, cells, first, count, values, waves, ledger);
}
