//! What the report tells of a circuit.

ghost use Rattle.std.specs.Prelude.{◌≡◌, ◌≤◌, ◌<◌, ◌++◌, ◌∷◌, [], OnOk, codes, length};
ghost use Rattle.wdf_law.specs.Network.{elements};
ghost use Rattle.wdf_law.specs.Trees.{first_of};
ghost use Rattle.wdf_netlist.specs.declared.TheConstants.{MAX_RATE};
ghost use Rattle.wdf_stages.specs.Bounding.{IsBounded};
ghost use Rattle.wdf_reporting.specs.ReportText.{HasRatios, branch_lines, circuit_lines, largest_line, lines_text, name_of, states_line};

use crate::elements::element_in;
use crate::junctions::push_junctions;
use crate::pieces::{push_number, push_number_line, push_word};
use crate::port_lines::push_elements;
use std::alloc::AllocError;
use wdf_bounds::Plan;
use wdf_law::{Net, Side};
use wdf_netlist::Circuit;
use wdf_stages::NetworkBounds;
use wdf_text::push_line;

// The line of a branch, of a lattice.
fn push_branch(out: &mut Vec<u8>, side: Side) -> Result<(), AllocError>
    ensures { OnOk result (out.new.items ≡ out.old.items ++ lines_text (branch_lines side)) }
{
    match side {
        Side::Whole => Ok(()),
        Side::A => {
            push_line(out, b"branch A")?;
            Ok(())
        }
        Side::B => {
            push_line(out, b"branch B")?;
            Ok(())
        }
    }
}

// The line of the root.
fn push_root(out: &mut Vec<u8>, circuit: &Circuit, net: &Net) -> Result<(), AllocError>
    requires { length (elements net.now) ≡ length circuit.now.elements }
    ensures { OnOk result (out.new.items ≡ out.old.items ++ (codes "root " ++ name_of circuit.now.elements (first_of net.now.left)) ++ 10 ∷ []) }
{
    wdf_law::laws::numbers(net);
    let root = element_in(circuit, net.left().first_leaf());
    push_word(out, b"root ", root.name.as_bytes())?;
    out.push(b'\n')?;
    Ok(())
}

// The line of the largest bound.
fn push_largest(
    out: &mut Vec<u8>,
    plan: &Plan,
    net: &Net,
    bounds: &NetworkBounds,
) -> Result<(), AllocError>
    requires { IsBounded net.now plan.now bounds.now }
    ensures { OnOk result (out.new.items ≡ out.old.items ++ largest_line plan.now net.now ++ 10 ∷ []) }
{
    // The network is there for the contract alone: the bounds are those of its ports.
    let _ = net;
    push_number(out, b"largest ", bounds.words.largest())?;
    push_number(out, b" limit ", 1 << (60 - plan.k()))?;
    out.push(b'\n')?;
    Ok(())
}

// The line of the states.
fn push_states(out: &mut Vec<u8>, net: &Net, certified: bool) -> Result<(), AllocError>
    ensures { OnOk result (out.new.items ≡ out.old.items ++ states_line net.now certified ++ 10 ∷ []) }
{
    push_number(out, b"states ", net.state_count() as u64)?;
    push_word(out, b" certified ", if certified { b"yes" } else { b"no" })?;
    out.push(b'\n')?;
    Ok(())
}

/// Appends what the report tells of the circuit of a side and of its network: the root, each element
/// with its port's ratio and the bound of its port's words, the junctions with their multipliers, the
/// largest bound with its limit, and whether the network has a certificate. Ratios are in units of
/// 2^-40 of the first source's resistance, multipliers in units of `2^-k`, bounds in units of a word.
///
/// The network is of the circuit, `bounds` are those of its words under the plan, and the rate, in
/// frames per second, is in 1..=1,000,000 and gives every element a ratio.
///
/// # Errors
///
/// Where no memory is left.
pub fn circuit_text(
    out: &mut Vec<u8>,
    side: Side,
    rate: u32,
    plan: &Plan,
    circuit: &Circuit,
    net: &Net,
    bounds: &NetworkBounds,
    certified: bool,
) -> Result<(), AllocError>
    requires slowest { 1 ≤ rate }
    requires fastest { rate ≤ MAX_RATE }
    requires ratios { HasRatios rate circuit.now.elements }
    requires count { length (elements net.now) ≡ length circuit.now.elements }
    requires bounded { IsBounded net.now plan.now bounds.now }
    ensures { OnOk result (out.new.items ≡ out.old.items ++ lines_text (circuit_lines side rate plan.now circuit.now.elements net.now certified)) }
{
    push_branch(out, side)?;
    push_root(out, circuit, net)?;
    push_elements(out, rate, plan, circuit, net, bounds)?;
    push_number_line(out, b"junction root ", u64::from(net.root_m()))?;
    push_junctions(out, net.left())?;
    push_junctions(out, net.right())?;
    push_largest(out, plan, net, bounds)?;
    push_states(out, net, certified)?;
    Ok(())
}
