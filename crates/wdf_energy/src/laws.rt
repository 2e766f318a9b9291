//! What the definitions of `specs/` imply: each function is a law, whose contract is proved and
//! whose body is empty.
ghost use Rattle.wdf_bounds.specs.WordBound.{Fits};
ghost use Rattle.wdf_energy.specs.Blocks.{FollowsBlocks};
ghost use Rattle.wdf_energy.specs.LedgerLaws.{FollowsFrames, TellsRuns};
ghost use Rattle.wdf_energy.specs.WorkedTotals.{AreWorkedTotals};

use wdf_bounds::Plan;
use wdf_law::Net;

/// Totals worked by hand are those of their runs: of a source with a capacitor and a load, and of two
/// sources with a load. Frames that a ledger is told of have the totals that were worked by hand, and
/// those of the ledger lines of another program.
pub fn worked_totals()
    ensures { AreWorkedTotals }
{}

/// The account of all frames of a run from rest has the totals of the run. Absorbed and stored are
/// at most what the law of energy has of them, in units of the sources' conductances, and together
/// they are at most incident.
pub fn runs_told(net: &Net)
    ensures { TellsRuns net.now }
{
    wdf_law::laws::ports(net);
    wdf_law::laws::numbers(net);
    wdf_law::laws::energy(net);
    wdf_quant::laws::sources_covered(net);
}

/// Where the plan fits the network, an account that holds the frames of a run, of which not all of
/// the plan's are done, has room for one frame more and holds it then; a new account holds none.
/// The totals of such an account are numbers of 128 bits, and absorbed and stored together are at
/// most incident.
pub fn frames_followed(net: &Net, plan: &Plan)
    requires { Fits net.now plan.now }
    ensures { FollowsFrames net.now plan.now }
{
    net.rules();
    wdf_law::laws::ports(net);
    wdf_law::laws::numbers(net);
    wdf_law::laws::energy(net);
    wdf_quant::laws::sources_covered(net);
    wdf_quant::laws::whole_walk(net);
}

/// Where the plan fits the network, an account that holds the frames of a run has room for a block of
/// frames more, of which the plan has that many left, and holds them then. The account of a block is
/// that of its frames one after another, as lists of inputs and frames have them.
pub fn blocks_followed(net: &Net, plan: &Plan)
    requires { Fits net.now plan.now }
    ensures { FollowsBlocks net.now plan.now }
{
    frames_followed(net, plan);
}
