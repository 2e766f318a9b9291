//! What holds of every run of networks that a plan fits.

ghost use Rattle.std.specs.Prelude.{◌≡◌, ◌≤◌, ◌<◌};
ghost use Rattle.wdf_lattice.specs.Runners.{FitsEach};
ghost use Rattle.wdf_lattice.specs.Sides.{sources_driven};
ghost use Rattle.wdf_wav.specs.Header.{IsPcmHead};
ghost use Rattle.wdf_frames.specs.Setting.{setting};
ghost use Rattle.wdf.specs.Runs.{ConductsEach, HoldsEach, KeepsEach, KeepsRuns, RulesOutEach, RulesOutReturns};

use wdf_bounds::Plan;
use wdf_bounds::laws::every_word;
use wdf_lattice::Networks;
use wdf_law::Net;
use wdf_law::laws::{conductances, energy};
use wdf_wav::Head;
use wdf_wav::laws::data_append;

// Where the network has a certificate, none of its states within the words returns without input, but
// rest: whichever certificate it is, and so of one that was made and let go.
fn no_return(net: &Net)
    ensures { RulesOutReturns net.now }
{
    wdf_check::laws::no_return(net);
}

// The laws of each network.
#[tactic(auto, using(crate::proofs::KeptLemmas::of_ladder, crate::proofs::KeptLemmas::of_lattice))]
fn network_laws(networks: &Networks, plan: &Plan)
    requires { FitsEach networks.now plan.now }
    ensures energy { KeepsEach networks.now }
    ensures words { HoldsEach networks.now plan.now }
    ensures conductances { ConductsEach networks.now }
    ensures certified { RulesOutEach networks.now }
    ensures sources { 1 ≤ sources_driven networks.now }
{
    match networks {
        Networks::Ladder(net) => {
            net.rules();
            energy(net);
            every_word(net, plan);
            conductances(net);
            no_return(net);
        }
        Networks::Lattice { a, b } => {
            energy(a);
            every_word(a, plan);
            conductances(a);
            no_return(a);
            energy(b);
            every_word(b, plan);
            conductances(b);
            no_return(b);
        }
    }
}

/// In every run of the networks on the frames of a wave, from rest, Kirchhoff's laws hold before each
/// truncation, no energy is gained, and every word keeps its bound; and no state of a network that has
/// a certificate returns. The plan fits the networks, and the wave is one that they run.
pub fn run_laws(networks: &Networks, plan: &Plan, head: &Head)
    requires fits { FitsEach networks.now plan.now }
    requires head { IsPcmHead head.now }
    requires frames { head.now.frames ≤ plan.now.frames }
    requires sources { 1 < sources_driven networks.now → head.now.channels ≡ sources_driven networks.now }
    ensures { KeepsRuns (setting networks.now plan.now head.now) }
{
    network_laws(networks, plan);
    data_append(head.bits);
}
