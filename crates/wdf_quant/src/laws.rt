//! What the definitions of `specs/` imply: each function is a law, whose contract is proved and
//! whose body is empty.
ghost use Rattle.wdf_quant.specs.Covering.{CoversSources};
ghost use Rattle.wdf_quant.specs.PortBound.{HasWholeWalk};
ghost use Rattle.wdf_quant.specs.WorkedWalks.{AreWorkedWalks};

use wdf_law::Net;

/// Walks worked by hand are those of their networks.
pub fn worked_walks()
    ensures { AreWorkedWalks }
{}

/// The number of each port times its conductance is at least 2^40 times the sum of the sources'
/// conductances.
pub fn sources_covered(net: &Net)
    ensures { CoversSources net.now }
{
    wdf_law::laws::multipliers(net);
    wdf_law::laws::numbers(net);
}

/// A walk has every port of the network: what each number of the list passes, each port does.
pub fn whole_walk(net: &Net)
    ensures { HasWholeWalk net.now }
{
    net.rules();
}
