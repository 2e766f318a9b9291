//! The run on a made wave.

ghost use Rattle.std.specs.Prelude.{◌≡◌, ◌≤◌, IfOk, OnOk};
ghost use Rattle.wdf_lattice.specs.Runners.{DriveAll, FitsEach};
ghost use Rattle.wdf_lattice.specs.Sides.{run_count, sources_driven};
ghost use Rattle.wdf_frames.specs.RunFacts.{TellsRun};
ghost use Rattle.wdf_frames.specs.RunStates.{IsReady, limited_by, setting_of, totals_by};
ghost use Rattle.wdf_frames.specs.Written.{IsWritten};
ghost use Rattle.wdf_made.specs.Wave.{made_data};
ghost use Rattle.wdf_made.specs.declared.TheConstants.{MAX_FRAMES, MAX_ORDER};
ghost use Rattle.wdf_soak.specs.Soaks.{made_setting, usual_plan};

use crate::growing_sink::GrowingSink;
use std::alloc::{AllocError, Global};
use wdf_bounds::Plan;
use wdf_frames::laws::one_end;
use wdf_frames::{FrameStop, WaveRun};
use wdf_io::SureSource;
use wdf_lattice::Networks;
use wdf_made::{made_data, made_head};
use wdf_wav::laws::data_append;

// A run of the made wave, at rest.
#[tactic(auto, using(crate::proofs::WaveLemmas::is_made_head))]
pub(crate) fn begin_run(
    alloc: Global,
    networks: Networks,
    plan: &Plan,
    frames: u32,
) -> Result<WaveRun, AllocError>
    requires few { frames ≤ MAX_FRAMES }
    requires plan { plan.now ≡ usual_plan }
    requires source { sources_driven networks ≡ 1 }
    requires fits { FitsEach networks usual_plan }
    requires driven { DriveAll networks (run_count networks 1) }
    ensures { IfOk result (IsReady (made_setting networks frames)) }
{
    WaveRun::new(alloc, networks, plan, &made_head(frames))
}

// The wave that it writes. All memory for it is taken before it is written.
pub(crate) fn write_wave(
    alloc: Global,
    run: &mut WaveRun,
    seed: u64,
    order: u8,
    frames: u32,
) -> Result<Vec<u8>, AllocError>
    requires order { order ≤ MAX_ORDER }
    requires frames { frames ≤ MAX_FRAMES }
    requires ready { IsReady (made_setting (setting_of run.old).networks frames) run.old }
    ensures wave { IfOk result (λ wave. IsWritten (setting_of run.old) (made_data seed order frames) wave.items) }
    ensures told { OnOk result (TellsRun (setting_of run.old) (made_data seed order frames) (limited_by run.new) (totals_by run.new)) }
    ensures same { setting_of run.new ≡ setting_of run.old }
{
    one_end();
    data_append(16);
    let body = made_data(alloc, seed, order, frames)?;
    let mut out = GrowingSink::new(alloc, 44 + body.len())?;
    let mut input = SureSource::new(body);
    match run.write(&mut input, &mut out) {
        Ok(()) => Ok(out.into_bytes()),
        Err(FrameStop::WriteFault) => Err(AllocError),
        Err(FrameStop::ReadFault) => unreachable!(),
        Err(FrameStop::Amplitude { .. }) => unreachable!(),
        Err(FrameStop::Truncated { .. }) => unreachable!(),
    }
}
