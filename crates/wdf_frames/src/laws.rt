//! What the definitions of `specs/` imply: each function is a law, whose contract is proved and
//! whose body calls laws alone.
ghost use Rattle.wdf_bounds.specs.Plans.{PlanOf};
ghost use Rattle.wdf_wav.specs.declared.head.Head.{Head};
ghost use Rattle.wdf_frames.specs.Ends.{HasOneEnd};
ghost use Rattle.wdf_frames.specs.FrameLaws.{HasOneResult};
ghost use Rattle.wdf_frames.specs.Setting.{setting};
ghost use Rattle.wdf_frames.specs.WorkedRuns.{AreWorkedRuns};

use wdf_lattice::Networks;
use wdf_lattice::laws::one_wave;
use wdf_wav::laws::data_append;

/// Bytes of frames give the output samples that were worked by hand: of one channel and of two, of two
/// sources in one run, of which one is limited, and of a lattice. So they do the totals of runs: of two
/// channels and of a branch.
pub fn worked_runs()
    ensures { AreWorkedRuns }
{}

/// The input behind a head of 1 to 8 channels of 8, 16, 24 or 32 bits has one end: all frames are
/// there and within amp, or a sample of a whole frame is the first over amp, or the input ends after
/// so many whole frames.
#[tactic(auto, using(crate::proofs::EndLemmas::one_end))]
pub fn one_end()
    ensures { HasOneEnd }
{
    data_append(8);
    data_append(16);
    data_append(24);
    data_append(32);
}

/// The bytes of frames have one result: the header, and the output samples that they give.
#[tactic(auto, using(crate::proofs::ResultLemmas::one_result))]
pub fn one_result(networks: &Networks)
    ensures { (plans : PlanOf) (form : Head) → HasOneResult (setting networks.now plans form) }
{
    one_wave(networks);
}
