//! The networks of a netlist.

ghost use Rattle.std.specs.Prelude.{◌≡◌, ◌≤◌, ℕ, IfOk, IfErr};
ghost use Rattle.wdf_design.specs.Designs.{IsDesigned};
ghost use Rattle.wdf_design.specs.Realising.{RealisesEach};
ghost use Rattle.wdf_lattice.specs.Runners.{DriveAll};
ghost use Rattle.wdf_lattice.specs.Sides.{run_count, sources_driven};
ghost use Rattle.wdf_stages.specs.Designing.{DesignRefuses};
ghost use Rattle.wdf_stages.specs.Opening.{source_count_of};

use crate::{DesignStop, element_name};
use std::alloc::Global;
use wdf_design::{DesignFault, design};
use wdf_lattice::Networks;
use wdf_netlist::Netlist;

/// The quantised networks of a netlist, with multipliers in units of `2^-k`. `k` is in 1..=20.
///
/// # Errors
///
/// `NotSeriesParallel` exactly where a circuit has no shape, and else `PortRange` exactly where a
/// ratio is out of range, each with the name of the element that [`design`](wdf_design::design) names
/// by its number: of several the first, branch A before branch B. `NoMemory` where no memory is left.
#[tactic(auto, using(crate::proofs::SourceLemmas::sources_counted))]
pub fn design_networks(alloc: Global, netlist: &Netlist, k: u8) -> Result<Networks, DesignStop>
    requires some { 1 ≤ k }
    requires few { k ≤ 20 }
    ensures designed { IfOk result (IsDesigned netlist.now k) }
    ensures refused { IfErr result (DesignRefuses netlist.now k) }

    // Each network is of its circuit.
    ensures realised { IfOk result (RealisesEach k netlist.now.form) }
    // A wave drives as many sources as the netlist has.
    ensures sources { IfOk result (λ ns. sources_driven ns ≡ source_count_of netlist.now.form) }
    // Channels that drive the sources one by one drive all of them.
    ensures driven { IfOk result (λ ns. (channels : ℕ) → DriveAll ns (run_count ns channels)) }
{
    match design(alloc, netlist, k) {
        Ok(networks) => Ok(networks),
        Err(
            DesignFault::Core {
                side,
                element,
                core,
            },
        ) => {
            let element = element_name(netlist.form(), side, element);
            Err(DesignStop::NotSeriesParallel {
                side,
                element,
                core,
            })
        }
        Err(DesignFault::Range { side, element, low }) => {
            let element = element_name(netlist.form(), side, element);
            Err(DesignStop::PortRange { side, element, low })
        }
        Err(DesignFault::NoMemory) => Err(DesignStop::NoMemory),
    }
}
