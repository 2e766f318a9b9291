//! The elements of a netlist by their names.

ghost use Rattle.std.specs.Prelude.{◌≡◌, ◌<◌, Some, length};
ghost use Rattle.wdf_design.specs.Realising.{IsElementAt};
ghost use Rattle.wdf_stages.specs.ElementNames.{name_at, name_in};

use wdf_law::Side;
use wdf_netlist::{Circuit, Form};
use wdf_text::Name;

// The name of an element of a circuit.
fn name_in(circuit: &Circuit, element: u32) -> Name
    requires { element < length circuit.now.elements }
    ensures { name_in (Some circuit.now) element ≡ Some result }
{
    circuit.elements()[element as usize].name
}

/// The name of the element with this number in the circuit of this side, which is to have it.
pub fn element_name(form: &Form, side: Side, element: u32) -> Name
    requires { IsElementAt form.now side element }
    ensures { name_at form.now side element ≡ Some result }
{
    match (form, side) {
        (Form::Ladder(circuit), Side::Whole) => name_in(circuit, element),
        (Form::Lattice { a, .. }, Side::A) => name_in(a, element),
        (Form::Lattice { b, .. }, Side::B) => name_in(b, element),
        _ => unreachable!(),
    }
}
