// Runs of a schedule that go on by a block of frames.
ghost use Rattle.std.specs.Prelude.{◌≡◌, ◌+◌, ◌*◌, ◌≤◌, length, map};
ghost use Rattle.wdf_law.specs.Network.{absorbing_numbers};
ghost use Rattle.wdf_bounds.specs.WordBound.{Fits};
ghost use Rattle.wdf_loop.specs.Advances.{AllAreAt, AllGoOn, root_of};
ghost use Rattle.wdf_loop.specs.Inputs.{AreAllowed};
ghost use Rattle.wdf_loop.specs.Layouts.{IsLayout};
ghost use Rattle.wdf_loop.specs.Parts.{AreParts, absorbing_at};

use crate::any_row::AnyRow;
use crate::layout::Layout;
use crate::part::Part;
use wdf_bounds::Plan;
use wdf_sched::Schedule;

/// Goes on with `count` frames, each the reference step from the state that the one before left.
/// `values` has a row for each source of each frame, source 0 first, frame after frame; none is
/// larger than the plan's greatest sample with its guard bits. `waves` comes to have a row for each
/// resistor and source of each frame, in netlist order, with what it is sent; `absorbing` are their
/// parts. `done` counts the frames.
pub(crate) fn advance<const C: usize, R: AnyRow<C>>(
    schedule: &Schedule,
    plan: &Plan,
    layout: &Layout,
    absorbing: &[Part],
    cells: &mut [R],
    count: usize,
    values: &[[i64; C]],
    waves: &mut [[i64; C]],
    done: u32,
)
    requires runs { C ≤ 8 }
    requires fits { Fits schedule.now.net plan.now }
    requires layout { IsLayout schedule.now layout.now.shares.items layout.now.marks.items layout.now.chains.items layout.now.feeds.items }
    requires stages { length cells.old ≡ length layout.now.shares.items }
    requires parts { AreParts schedule.now (root_of layout.now.shares.items) layout.now.marks.items (length (absorbing_numbers schedule.now.net)) (absorbing_at schedule.now.net) absorbing.now }
    requires sources { length values.now ≡ count * length layout.now.feeds.items }
    requires waves { length waves.old ≡ count * length absorbing.now }
    requires allowed { AreAllowed C plan.now values.now }
    requires frames { done + count ≤ plan.now.frames }
    requires run { AllAreAt C schedule.now plan.now done layout.now.shares.items layout.now.marks.items layout.now.chains.items layout.now.feeds.items (map R.cells cells.old) }
    ensures { AllGoOn C schedule.now plan.now done count layout.now.shares.items layout.now.marks.items layout.now.chains.items layout.now.feeds.items (map R.cells cells.old) values.now (map R.cells cells.new) waves.new }
{
    schedule.rules();
    plan.rules();
    let net = schedule.net();
    net.rules();
    wdf_law::laws::numbers(net);
    wdf_law::laws::one_step(net);
    wdf_bounds::laws::every_word(net, plan);
    wdf_sched::laws::values(schedule);
    let root = layout.shares.len() - 1;
    R::block_of(
        net.k(),
        &layout.shares,
        &layout.chains,
        &layout.feeds,
        absorbing,
        cells,
        root,
        count,
        values,
        waves,
    );
}
