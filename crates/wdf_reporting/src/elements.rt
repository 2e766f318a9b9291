//! The elements of a circuit, as the report tells them.

ghost use Rattle.std.specs.Prelude.{◌≡◌, ◌<◌, ◌==◌, length, not};
ghost use Rattle.wdf_netlist.specs.Circuits.{first_source};
ghost use Rattle.wdf_ports.specs.PortRatio.{element_at};
ghost use Rattle.wdf_reporting.specs.ReportText.{kind_word};

use wdf_law::Kind;
use wdf_netlist::{Circuit, Element};

// The element of this number.
pub(crate) fn element_in(circuit: &Circuit, number: u32) -> &Element
    requires { number < length circuit.now.elements }
    ensures { result.now ≡ element_at circuit.now.elements number }
{
    &circuit.elements()[number as usize]
}

// Whether it is not the first source.
fn is_behind(circuit: &Circuit, number: u32) -> bool
    ensures { result ≡ not (number == first_source circuit.now.elements) }
{
    number != circuit.source()
}

// The word of an element's kind.
pub(crate) fn kind_in(circuit: &Circuit, number: u32) -> &'static [u8]
    requires { number < length circuit.now.elements }
    ensures { result.now ≡ kind_word circuit.now.elements number }
{
    match element_in(circuit, number).kind {
        Kind::Src => {
            if is_behind(circuit, number) {
                b"input"
            } else {
                b"source"
            }
        }
        Kind::Res => b"r",
        Kind::Ind => b"l",
        Kind::Cap => b"c",
    }
}
