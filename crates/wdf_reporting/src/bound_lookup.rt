//! The bound of the words of an element's port.

ghost use Rattle.std.specs.Prelude.{◌≡◌, ◌<◌, IsSome, Some, length};
ghost use Rattle.std.specs.Option.{option_map};
ghost use Rattle.wdf_law.specs.Network.{elements};
ghost use Rattle.wdf_quant.specs.PortBound.{leaf_in, number_at};
ghost use Rattle.wdf_bounds.specs.WordBound.{bound, bounds_of};
ghost use Rattle.wdf_stages.specs.Bounding.{IsBounded};

use wdf_bounds::Plan;
use wdf_law::Net;
use wdf_quant::PortRatio;
use wdf_stages::NetworkBounds;

// The word that stands beside the first port of an element.
fn word_beside(plan: &Plan, ports: &[PortRatio], words: &[u64], elem: u32) -> u64
    requires words { words.now ≡ bounds_of plan.now ports.now }
    requires there { IsSome (leaf_in ports.now elem) }
    ensures { option_map (bound plan.now) (leaf_in ports.now elem) ≡ Some result }
{
    // The plan is there for the contract alone.
    let _ = plan;
    for i in 0..ports.len() {
        if ports[i].leaf && ports[i].elem == elem {
            return words[i];
        }
    }
    unreachable!()
}

// The bound of an element's port in a network whose bounds these are.
pub(crate) fn bound_at(plan: &Plan, net: &Net, bounds: &NetworkBounds, elem: u32) -> u64
    requires bounded { IsBounded net.now plan.now bounds.now }
    requires within { elem < length (elements net.now) }
    ensures { result ≡ bound plan.now (number_at net.now elem) }
{
    let _ = net;
    word_beside(plan, bounds.ratios.list(), bounds.words.words(), elem)
}
