//! What the definitions of `specs/` imply: each function is a law, whose contract is proved and
//! whose body calls laws alone.
ghost use Rattle.wdf_lattice.specs.RunnerLaws.{GoesOnFromRest};
ghost use Rattle.wdf_lattice.specs.TotalLaws.{TellsTotals};
ghost use Rattle.wdf_lattice.specs.WaveLaws.{GoesOn, HasOneWave};
ghost use Rattle.wdf_lattice.specs.WorkedAccounts.{AreWorkedAccounts};
ghost use Rattle.wdf_lattice.specs.WorkedWaves.{AreWorkedWaves};

use crate::Networks;
use wdf_energy::laws::runs_told;
use wdf_law::laws::one_step;

/// Samples give the output values that were worked by hand: of one channel and of five, of two
/// sources in one run, and of lattices.
pub fn worked_waves()
    ensures { AreWorkedWaves }
{}

/// Samples have the totals that were worked by hand: of one channel and of the second of two, of two
/// sources in one run, and of a lattice's branch.
pub fn worked_accounts()
    ensures { AreWorkedAccounts }
{}

/// Samples give just one list of load waves: the runs that the definition asks for exist, and all
/// such runs have the same waves.
#[tactic(auto, using(crate::proofs::OneWave::one_wave_ladder, crate::proofs::OneWave::one_wave_lattice))]
pub fn one_wave(networks: &Networks)
    ensures { HasOneWave networks.now }
{
    match networks {
        Networks::Ladder(net) => one_step(net),
        Networks::Lattice { a, b } => {
            one_step(a);
            one_step(b);
        }
    }
}

/// However frames are cut, what follows goes on from the states that the front leaves; so the waves
/// of whole frames are a front of those of more frames.
#[tactic(auto, using(crate::proofs::OneWave::goes_on))]
pub fn goes_on(networks: &Networks)
    ensures { GoesOn networks.now }
{
    let _ = networks;
}

/// So a runner's blocks, from rest and however they are cut, give the waves and the accounts of all
/// their samples.
#[tactic(auto, using(crate::proofs::HistoryLemmas::goes_on_from_rest))]
pub fn goes_on_from_rest(networks: &Networks)
    ensures { GoesOnFromRest networks.now }
{
    let _ = networks;
}

/// The accounts of samples from rest have the totals of every reference run on them.
#[tactic(auto, using(crate::proofs::TotalLemmas::tells_ladder, crate::proofs::TotalLemmas::tells_lattice))]
pub fn totals_told(networks: &Networks)
    ensures { TellsTotals networks.now }
{
    match networks {
        Networks::Ladder(net) => {
            one_step(net);
            runs_told(net);
        }
        Networks::Lattice { a, b } => {
            one_step(a);
            one_step(b);
            runs_told(a);
            runs_told(b);
        }
    }
}
