//! What the definitions of `specs/` imply: each function is a law, whose contract is proved and
//! whose body is empty.
ghost use Rattle.wdf_bounds.specs.WordBound.{Fits};
ghost use Rattle.wdf_bounds.specs.HeldWords.{HoldsWords};

use crate::Plan;
use wdf_law::Net;

/// Where the plan fits the network, every word of every run keeps its bound: in a run from rest of
/// at most the plan's frames, where no source is driven by more than amp·2^guard, every wave is at
/// most its port's bound, every outgoing value, in units of 1/q, at most q times it, and the squares
/// of the waves that a resistor or a source is sent sum to at most the square of its bound. It is
/// told for a step from any state that so many frames may have reached, too.
pub fn every_word(net: &Net, plan: &Plan)
    requires { Fits net.now plan.now }
    ensures { HoldsWords net.now plan.now }
{
    wdf_law::laws::ports(net);
    wdf_law::laws::numbers(net);
    wdf_law::laws::energy(net);
    wdf_law::laws::every_wave(net);
    wdf_quant::laws::sources_covered(net);
    wdf_quant::laws::whole_walk(net);
}
