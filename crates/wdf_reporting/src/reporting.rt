//! The report of a netlist.

ghost use Rattle.std.specs.Prelude.{◌≡◌, ◌≤◌, IfOk, OnOk, length};
ghost use Rattle.wdf_law.specs.Network.{elements};
ghost use Rattle.wdf_netlist.specs.declared.TheConstants.{MAX_RATE};
ghost use Rattle.wdf_design.specs.Designs.{IsDesigned};
ghost use Rattle.wdf_design.specs.Realising.{RealisesEach};
ghost use Rattle.wdf_stages.specs.Bounding.{AreBounded, IsBounded};
ghost use Rattle.wdf_reporting.specs.Findings.{AppendsCircuit, AppendsCircuits, IsReport};
ghost use Rattle.wdf_reporting.specs.ReportText.{HasRatios};

use crate::{circuit_text, is_certified, report_head};
use std::alloc::{AllocError, Global};
use wdf_bounds::Plan;
use wdf_lattice::Networks;
use wdf_law::{Net, Side};
use wdf_netlist::{Circuit, Form, Netlist};
use wdf_stages::{NetworkBounds, PlanBounds};

// What it tells of the circuit of a side.
fn push_circuit(
    out: &mut Vec<u8>,
    alloc: Global,
    side: Side,
    rate: u32,
    plan: &Plan,
    circuit: &Circuit,
    net: &Net,
    bounds: &NetworkBounds,
) -> Result<(), AllocError>
    requires slowest { 1 ≤ rate }
    requires fastest { rate ≤ MAX_RATE }
    requires ratios { HasRatios rate circuit.now.elements }
    requires count { length (elements net.now) ≡ length circuit.now.elements }
    requires bounded { IsBounded net.now plan.now bounds.now }
    ensures { OnOk result (AppendsCircuit side rate plan.now circuit.now.elements net.now out.old.items out.new.items) }
{
    let certified = is_certified(alloc, net)?;
    circuit_text(out, side, rate, plan, circuit, net, bounds, certified)?;
    Ok(())
}

// What it tells of the circuits.
fn push_circuits(
    out: &mut Vec<u8>,
    alloc: Global,
    netlist: &Netlist,
    networks: &Networks,
    plan: &Plan,
    bounds: &PlanBounds,
) -> Result<(), AllocError>
    requires designed { IsDesigned netlist.now plan.now.k networks.now }
    requires realised { RealisesEach plan.now.k netlist.now.form networks.now }
    requires bounded { AreBounded networks.now plan.now bounds.now }
    ensures { OnOk result (AppendsCircuits netlist.now networks.now plan.now out.old.items out.new.items) }
{
    let rate = netlist.rate();
    match (netlist.form(), networks, bounds) {
        (Form::Ladder(c), Networks::Ladder(net), PlanBounds::Ladder(words)) => {
            wdf_law::laws::numbers(net);
            push_circuit(out, alloc, Side::Whole, rate, plan, c, net, words)?;
            Ok(())
        }
        (
            Form::Lattice { a, b },
            Networks::Lattice { a: m, b: n },
            PlanBounds::Lattice {
                a: first,
                b: second,
            },
        ) => {
            wdf_law::laws::numbers(m);
            wdf_law::laws::numbers(n);
            push_circuit(out, alloc, Side::A, rate, plan, a, m, first)?;
            push_circuit(out, alloc, Side::B, rate, plan, b, n, second)?;
            Ok(())
        }
        _ => unreachable!(),
    }
}

/// The report of a netlist: its form and rate, the plan, and what [`circuit_text`] tells of each
/// circuit. The networks are those of the netlist, of the plan's width, and the bounds those of their
/// words under the plan.
///
/// # Errors
///
/// Where no memory is left.
pub fn report(
    alloc: Global,
    netlist: &Netlist,
    networks: &Networks,
    plan: &Plan,
    bounds: &PlanBounds,
) -> Result<Vec<u8>, AllocError>
    requires designed { IsDesigned netlist.now plan.now.k networks.now }
    requires realised { RealisesEach plan.now.k netlist.now.form networks.now }
    requires bounded { AreBounded networks.now plan.now bounds.now }
    ensures { IfOk result (λ text. IsReport netlist.now networks.now plan.now text.items) }
{
    let mut out = Vec::new(alloc);
    report_head(&mut out, netlist, plan)?;
    push_circuits(&mut out, alloc, netlist, networks, plan, bounds)?;
    Ok(out)
}
