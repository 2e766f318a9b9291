//! The stages of a soak.

ghost use Rattle.std.specs.Prelude.{◌≡◌, ◌≤◌, ℕ, length, drop, IfOk, IfErr, IsSome, Some};
ghost use Rattle.wdf_law.specs.declared.side.Side.TheVariants.{Whole};
ghost use Rattle.wdf_design.specs.Designs.{IsDesigned};
ghost use Rattle.wdf_design.specs.Realising.{RealisesEach};
ghost use Rattle.wdf_lattice.specs.Runners.{DriveAll, FitsEach};
ghost use Rattle.wdf_lattice.specs.Sides.{network_at, run_count, sources_driven};
ghost use Rattle.wdf_stages.specs.Bounding.{AreBounded};
ghost use Rattle.wdf_stages.specs.Designing.{DesignRefuses};
ghost use Rattle.wdf_frames.specs.RunFacts.{TellsRun};
ghost use Rattle.wdf_frames.specs.RunStates.{limited_by, setting_of, totals_by};
ghost use Rattle.wdf_frames.specs.Written.{IsWritten};
ghost use Rattle.wdf_made.specs.Ladder.{made_netlist};
ghost use Rattle.wdf_made.specs.Wave.{made_data};
ghost use Rattle.wdf_made.specs.declared.TheConstants.{MAX_FRAMES, MAX_ORDER};
ghost use Rattle.wdf_soak.specs.Soaks.{HasFinding, IsSoaked, IsSummary, LadderRefuses, SoakRefuses, WordsRefuse, made_setting, stop_of_words, usual_plan};

use crate::figures::figures_in;
use crate::running::{begin_run, write_wave};
use crate::soak_stop::SoakStop;
use crate::summarising::summary;
use std::alloc::{AllocError, Global};
use wdf_bounds::Plan;
use wdf_frames::WaveRun;
use wdf_lattice::Networks;
use wdf_law::{Net, Side};
use wdf_made::laws::{one_edge, one_source};
use wdf_made::made_netlist;
use wdf_netlist::Netlist;
use wdf_reporting::is_certified;
use wdf_stages::{BoundStop, DesignStop, PlanBounds, bound_words, design_networks};

// The plan of a run of 16 bits that no operand changes.
fn usual_plan() -> Plan
    ensures { result ≡ usual_plan }
{
    Plan::new(14, 4, 0, 67_108_864, 32_768, 16).unwrap()
}

// Why the ladder of a seed and an order has no networks; it has no core.
#[tactic(auto, using(crate::proofs::LadderLemmas::no_core))]
fn ladder_stop(seed: u64, order: u8, stop: DesignStop) -> SoakStop
    requires some { 1 ≤ order }
    requires few { order ≤ MAX_ORDER }
    requires refused { DesignRefuses (made_netlist seed order) usual_plan.k stop }
    ensures { LadderRefuses (made_netlist seed order) result }
{
    one_edge(seed, order);
    match stop {
        DesignStop::PortRange { side, element, low } => SoakStop::PortRange { side, element, low },
        DesignStop::NoMemory => SoakStop::NoMemory,
        DesignStop::NotSeriesParallel { .. } => unreachable!(),
    }
}

// The networks of the ladder of a seed and an order, which is series-parallel.
#[tactic(auto, using(crate::proofs::LadderLemmas::is_whole))]
fn design_ladder(
    alloc: Global,
    seed: u64,
    order: u8,
    netlist: &Netlist,
) -> Result<Networks, SoakStop>
    requires some { 1 ≤ order }
    requires few { order ≤ MAX_ORDER }
    requires made { netlist.now ≡ made_netlist seed order }
    ensures designed { IfOk result (IsDesigned netlist.now usual_plan.k) }
    ensures refused { IfErr result (LadderRefuses netlist.now) }
    ensures realised { IfOk result (RealisesEach usual_plan.k netlist.now.form) }
    ensures whole { IfOk result (λ ns. IsSome (network_at ns Whole)) }
    ensures source { IfOk result (λ ns. sources_driven ns ≡ 1) }
    ensures driven { IfOk result (λ ns. (channels : ℕ) → DriveAll ns (run_count ns channels)) }
{
    one_source(seed, order);
    match design_networks(alloc, netlist, 14) {
        Ok(networks) => Ok(networks),
        Err(stop) => Err(ladder_stop(seed, order, stop)),
    }
}

// Why the plan does not fit its network.
fn words_stop(stop: BoundStop) -> SoakStop
    ensures { result ≡ stop_of_words stop }
{
    match stop {
        BoundStop::Bound {
            side,
            element,
            ratio,
            need,
            limit,
        } => SoakStop::Bound {
            side,
            element,
            ratio,
            need,
            limit,
        },
        BoundStop::NoMemory => SoakStop::NoMemory,
    }
}

// The bounds of their words, which the plan fits.
#[tactic(auto, using(crate::proofs::LadderLemmas::words_told))]
fn bound_ladder(
    alloc: Global,
    netlist: &Netlist,
    networks: &Networks,
    plan: &Plan,
) -> Result<PlanBounds, SoakStop>
    requires plan { plan.now ≡ usual_plan }
    requires realised { RealisesEach usual_plan.k netlist.now.form networks.now }
    ensures bounded { IfOk result (AreBounded networks.now usual_plan) }
    ensures fits { IfOk result (λ _. FitsEach networks.now usual_plan) }
    ensures refused { IfErr result (WordsRefuse netlist.now networks.now) }
{
    match bound_words(alloc, netlist, networks, plan) {
        Ok(words) => Ok(words),
        Err(stop) => Err(words_stop(stop)),
    }
}

// The network of a ladder.
fn whole(networks: &Networks) -> &Net
    requires { IsSome (network_at networks.now Whole) }
    ensures { network_at networks.now Whole ≡ Some result.now }
{
    networks.side(Side::Whole).unwrap()
}

// Whether it has a certificate.
fn certify_ladder(alloc: Global, networks: &Networks) -> Result<bool, AllocError>
    requires { IsSome (network_at networks.now Whole) }
    ensures { IfOk result (HasFinding networks.now) }
{
    is_certified(alloc, whole(networks))
}

// The bytes behind the header of a wave.
fn data_in(wave: &[u8]) -> &[u8]
    requires { 44 ≤ length wave.now }
    ensures { result.now ≡ drop 44 wave.now }
{
    wave.split_at(44).1
}

// The summary of a run that is done, and of the wave that it wrote.
#[tactic(auto, using(crate::proofs::TellLemmas::has_totals))]
fn tell_run(
    alloc: Global,
    seed: u64,
    order: u8,
    frames: u32,
    certified: bool,
    run: &WaveRun,
    wave: &[u8],
) -> Result<Vec<u8>, AllocError>
    requires set { setting_of run.now ≡ made_setting (setting_of run.now).networks frames }
    requires found { HasFinding (setting_of run.now).networks certified }
    requires written { IsWritten (setting_of run.now) (made_data seed order frames) wave.now }
    requires told { TellsRun (setting_of run.now) (made_data seed order frames) (limited_by run.now) (totals_by run.now) }
    ensures { IfOk result (λ text. IsSummary seed order frames (setting_of run.now).networks text.items) }
{
    let figures = figures_in(data_in(wave));
    let totals = run.totals(Side::Whole, 0).unwrap();
    let net = whole(run.networks());
    let clipped = run.limited();
    let text = summary(
        alloc, seed, order, net, certified, frames, clipped, &figures, &totals,
    )?;
    Ok(text)
}

// The summary of the run of the made wave.
fn run_ladder(
    alloc: Global,
    seed: u64,
    order: u8,
    frames: u32,
    networks: Networks,
    plan: &Plan,
) -> Result<Vec<u8>, AllocError>
    requires order { order ≤ MAX_ORDER }
    requires few { frames ≤ MAX_FRAMES }
    requires plan { plan.now ≡ usual_plan }
    requires whole { IsSome (network_at networks Whole) }
    requires source { sources_driven networks ≡ 1 }
    requires fits { FitsEach networks usual_plan }
    requires driven { DriveAll networks (run_count networks 1) }
    ensures { IfOk result (λ text. IsSummary seed order frames networks text.items) }
{
    let certified = certify_ladder(alloc, &networks)?;
    let mut run = begin_run(alloc, networks, plan, frames)?;
    let wave = write_wave(alloc, &mut run, seed, order, frames)?;
    tell_run(alloc, seed, order, frames, certified, &run, &wave)
}

/// The summary of what a run writes on the ladder and the wave that are made for a seed, an order in
/// 1..=32 and frames in 1..=4,194,304. The run is that of the program where no operand is given.
///
/// # Errors
///
/// `PortRange` exactly where a ratio of the ladder is out of range, and else `Bound` exactly where the
/// plan does not fit its network, each as the stages of a run answer it; `NoMemory` where no memory is
/// left.
#[tactic(auto, using(crate::proofs::LadderLemmas::is_soaked, crate::proofs::LadderLemmas::ladder_refuses, crate::proofs::LadderLemmas::words_refuse))]
pub fn soak(alloc: Global, seed: u64, order: u8, frames: u32) -> Result<Vec<u8>, SoakStop>
    requires some_order { 1 ≤ order }
    requires few_orders { order ≤ MAX_ORDER }
    requires some_frames { 1 ≤ frames }
    requires few_frames { frames ≤ MAX_FRAMES }
    ensures soaked { IfOk result (λ text. IsSoaked seed order frames text.items) }
    ensures refused { IfErr result (SoakRefuses seed order) }
{
    let netlist = made_netlist(alloc, seed, order)?;
    let plan = usual_plan();
    let networks = design_ladder(alloc, seed, order, &netlist)?;
    bound_ladder(alloc, &netlist, &networks, &plan)?;
    Ok(run_ladder(alloc, seed, order, frames, networks, &plan)?)
}
