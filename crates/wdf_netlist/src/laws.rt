//! Laws of the netlist's text, and of the elements of a circuit.

ghost use Rattle.std.specs.Prelude.{◌≡◌, ◌≤◌, Bool, length};
ghost use Rattle.wdf_law.specs.declared.kind.Kind.{Kind};
ghost use Rattle.wdf_netlist.specs.Canonical.{canonical};
ghost use Rattle.wdf_netlist.specs.Circuits.{count_kind, numbers_where};
ghost use Rattle.wdf_netlist.specs.Netlists.{NetlistValue};
ghost use Rattle.wdf_netlist.specs.NetlistText.{HasOneReading, Stands};

use crate::{Circuit, Netlist};
use wdf_text::MAX_TEXT;

/// A text stands for exactly one netlist and has no fault, or it has exactly one fault and stands
/// for none.
#[tactic(auto, using(crate::proofs::ReadingLemmas::one_reading))]
pub fn one_reading(text: &[u8])
    ensures { HasOneReading text.now }
{}

/// The canonical text of a netlist stands for that netlist and for no other, and is short enough to
/// be read. So what [`print`](crate::print) writes is read as the netlist that was printed.
#[tactic(auto, using(crate::proofs::RoundTripLemmas::stands_for_it, crate::proofs::RoundTripLemmas::for_nothing_else, crate::proofs::RoundTripLemmas::is_short))]
pub fn round_trip(netlist: &Netlist)
    ensures stands { Stands (canonical netlist.now) netlist.now }
    ensures only { (other : NetlistValue) → Stands (canonical netlist.now) other → other ≡ netlist.now }
    ensures short { length (canonical netlist.now) ≤ MAX_TEXT }
{
    netlist.rules();
}

/// As many numbers are those of a kind's elements as there are elements of that kind.
#[tactic(auto, using(crate::proofs::SourceLemmas::length_numbers))]
pub fn kinds_counted(circuit: &Circuit)
    ensures { (test : Kind → Bool) → length (numbers_where test circuit.now.elements) ≡ count_kind test circuit.now.elements }
{
    let _ = circuit;
}
