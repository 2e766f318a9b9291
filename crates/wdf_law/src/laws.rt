//! What the definitions of `specs/` imply: each function is a law, whose contract is proved and
//! whose body is empty.
ghost use Rattle.wdf_law.specs.Laws.{BoundsEveryWave, HasConductances, HasOneOutput, HasOneStep, KeepsEnergy};
ghost use Rattle.wdf_law.specs.PortLaws.{HasPorts};
ghost use Rattle.wdf_law.specs.TreeRules.{HasNumbers, HasSoundTrees};
ghost use Rattle.wdf_law.specs.WorkedFrames.{AreWorked};

use crate::Net;

/// Frames worked by hand are steps of their networks: a capacitor, an inductor, a series junction,
/// a source that is written against its place, two reactances and two sources whose numbers are not
/// in the order of their places, and both outlets. The ports and the energies of two of them are
/// numbers worked by hand too.
pub fn worked_frames()
    ensures { AreWorked }
{}

/// Every port has a positive conductance, and at every junction and the root the conductances fit
/// the multiplier.
pub fn conductances(net: &Net)
    ensures { HasConductances net.now }
{
    net.rules();
}

/// Every multiplier of the two trees is in `1..=2^k - 1`, as a fact that goes down the trees.
pub fn multipliers(net: &Net)
    ensures { HasSoundTrees net.now }
{
    net.rules();
}

/// The numbers of the elements are those below their count, each once, so that no two leaves of
/// the trees have one number; and a list of one value for each reactance gives each its own.
pub fn numbers(net: &Net)
    ensures { HasNumbers net.now }
{
    net.rules();
}

/// In a step each element has a port with the conductance and the waves that the network has at
/// its number. These conductances are positive, and the stored, the incident and the absorbed
/// energy are sums over them; where no source's value is larger than c, the incident energy is at
/// most the sources' conductances times c².
pub fn ports(net: &Net)
    ensures { HasPorts net.now }
{
    net.rules();
}

/// From every state and for every input there is a step, and any two such steps are equal; it is
/// the solved one, and what it sent to the reactances is their state after it.
pub fn one_step(net: &Net)
    ensures { HasOneStep net.now }
{
    net.rules();
}

/// So for every list of frames of samples, one for each source, there is one list of output values.
pub fn one_output(net: &Net)
    ensures { HasOneOutput net.now }
{
    net.rules();
}

/// In no step do the stored and the absorbed energy exceed what was stored before and what the
/// sources sent in; they are equal exactly where nothing is truncated. So in a run, after each
/// frame, what is stored and was absorbed so far is at most what was stored at first and was sent
/// in so far; at rest nothing is stored.
pub fn energy(net: &Net)
    ensures { KeepsEnergy net.now }
{
    net.rules();
}

/// Every wave, and every outgoing value before truncation, is bounded by the energy that was stored
/// and came in, and in a run from rest by what the sources sent in so far.
pub fn every_wave(net: &Net)
    ensures { BoundsEveryWave net.now }
{
    net.rules();
}
