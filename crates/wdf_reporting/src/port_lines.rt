//! The lines of the elements' ports.

ghost use Rattle.std.specs.Prelude.{◌≡◌, ◌≤◌, ◌<◌, ◌++◌, ◌∷◌, [], OnOk, length};
ghost use Rattle.wdf_law.specs.Network.{elements};
ghost use Rattle.wdf_netlist.specs.declared.TheConstants.{MAX_RATE};
ghost use Rattle.wdf_ports.specs.PortRatio.{element_ratio};
ghost use Rattle.wdf_stages.specs.Bounding.{IsBounded};
ghost use Rattle.wdf_reporting.specs.ReportText.{HasRatios, element_line, element_lines, lines_text};

use crate::bound_lookup::bound_at;
use crate::elements::{element_in, kind_in};
use crate::pieces::{push_number, push_word};
use std::alloc::AllocError;
use wdf_bounds::Plan;
use wdf_law::Net;
use wdf_netlist::Circuit;
use wdf_ports::leaf_ratio;
use wdf_stages::NetworkBounds;

// The ratio of the port of an element, which is in range.
fn ratio_of(rate: u32, circuit: &Circuit, number: u32) -> u64
    requires slowest { 1 ≤ rate }
    requires fastest { rate ≤ MAX_RATE }
    requires ratios { HasRatios rate circuit.now.elements }
    requires within { number < length circuit.now.elements }
    ensures { result ≡ element_ratio rate circuit.now.elements number }
{
    match leaf_ratio(rate, circuit, number) {
        Ok(ratio) => ratio,
        Err(_) => unreachable!(),
    }
}

// The line of an element, with the bound of its port's words.
fn push_element(
    out: &mut Vec<u8>,
    rate: u32,
    circuit: &Circuit,
    number: u32,
    words: u64,
) -> Result<(), AllocError>
    requires slowest { 1 ≤ rate }
    requires fastest { rate ≤ MAX_RATE }
    requires ratios { HasRatios rate circuit.now.elements }
    requires within { number < length circuit.now.elements }
    ensures { OnOk result (out.new.items ≡ out.old.items ++ element_line rate circuit.now.elements number words ++ 10 ∷ []) }
{
    push_word(
        out,
        b"element ",
        element_in(circuit, number).name.as_bytes(),
    )?;
    push_word(out, b" ", kind_in(circuit, number))?;
    push_number(out, b" ratio ", ratio_of(rate, circuit, number))?;
    push_number(out, b" bound ", words)?;
    out.push(b'\n')?;
    Ok(())
}

// The lines of all elements.
pub(crate) fn push_elements(
    out: &mut Vec<u8>,
    rate: u32,
    plan: &Plan,
    circuit: &Circuit,
    net: &Net,
    bounds: &NetworkBounds,
) -> Result<(), AllocError>
    requires slowest { 1 ≤ rate }
    requires fastest { rate ≤ MAX_RATE }
    requires ratios { HasRatios rate circuit.now.elements }
    requires count { length (elements net.now) ≡ length circuit.now.elements }
    requires bounded { IsBounded net.now plan.now bounds.now }
    ensures { OnOk result (out.new.items ≡ out.old.items ++ lines_text (element_lines rate plan.now circuit.now.elements net.now)) }
{
    for number in 0..circuit.elements().len() as u32 {
        push_element(
            out,
            rate,
            circuit,
            number,
            bound_at(plan, net, bounds, number),
        )?;
    }
    Ok(())
}
