// The ratio of an element's port.
ghost use Rattle.std.specs.Prelude.{◌≡◌, ◌≤◌, ◌<◌, ◌*◌, ◌≤ℤ◌, ◌-ℤ◌, pos, negsuc, length};
ghost use Rattle.wdf_frac.specs.Units.{units_of};
ghost use Rattle.wdf_netlist.specs.Circuits.{IsElementValue};
ghost use Rattle.wdf_netlist.specs.declared.TheConstants.{MAX_RATE};
ghost use Rattle.wdf_ports.specs.PortRatio.{GivesRatio, GivesUnits, element_ratio, port_resistance, ratio_over};

use crate::PortFault;
use wdf_frac::{Frac, Scaled};
use wdf_law::Kind;
use wdf_netlist::Circuit;
use wdf_text::Quantity;

// How many units num/den · 10^tens ohms are over a source's resistance.
fn units_over(num: u64, den: u64, tens: i32, source: Quantity) -> Scaled
    requires num { (1 ≤ num) × (num ≤ 1999999998000000) }
    requires den { (1 ≤ den) × (den ≤ 1999999998000000) }
    requires tens { (negsuc 17 ≤ℤ tens) × (tens ≤ℤ pos 18) }
    requires source { IsElementValue source }
    ensures { GivesUnits (units_of num (den * source.digits) (tens -ℤ source.exp)) result }
{
    let num = u128::from(num);
    let den = u128::from(den) * u128::from(source.digits);
    let Ok(ratio) = Frac::new(num, den) else {
        unreachable!();
    };
    ratio.scaled(tens - i32::from(source.exp))
}

// The ratio of a port resistance to that of a source.
fn ratio_over(rate: u32, kind: Kind, value: Quantity, source: Quantity) -> Scaled
    requires slowest { 1 ≤ rate }
    requires fastest { rate ≤ MAX_RATE }
    requires value { IsElementValue value }
    requires source { IsElementValue source }
    ensures { GivesUnits (ratio_over (port_resistance rate kind value) source) result }
{
    let tens = i32::from(value.exp);
    let doubled = 2 * u64::from(rate) * value.digits;
    match kind {
        Kind::Res | Kind::Src => units_over(value.digits, 1, tens, source),
        Kind::Ind => units_over(doubled, 1, tens, source),
        Kind::Cap => units_over(1, doubled, -tens, source),
    }
}

/// The port resistance of an element over that of source 0, in units of 2^-40.
///
/// It is that of a resistor or source itself, 2·L·rate of an inductor and 1/(2·C·rate) of a
/// capacitor, rounded once to the nearest whole number of units, half up. The rate is in frames per
/// second.
///
/// # Errors
///
/// `Range` with this element exactly where the number is below 1 (`low`) or above 2^62.
pub fn leaf_ratio(rate: u32, circuit: &Circuit, elem: u32) -> Result<u64, PortFault>
    requires slowest { 1 ≤ rate }
    requires fastest { rate ≤ MAX_RATE }
    requires element { elem < length circuit.now.elements }
    ensures { GivesRatio elem (element_ratio rate circuit.now.elements elem) result }
{
    circuit.rules();
    let elements = circuit.elements();
    let source = elements[circuit.source() as usize].value;
    let element = elements[elem as usize];
    match ratio_over(rate, element.kind, element.value, source) {
        Scaled::At(ratio) => Ok(ratio),
        Scaled::Low => Err(PortFault::Range {
            element: elem,
            low: true,
        }),
        Scaled::High => Err(PortFault::Range {
            element: elem,
            low: false,
        }),
    }
}
