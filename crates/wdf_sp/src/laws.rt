//! What the definitions of `specs/` imply: each function is a law, whose contract is proved.
ghost use Rattle.wdf_law.specs.Spans.{outline_of};
ghost use Rattle.wdf_sp.specs.Edges.{branches};
ghost use Rattle.wdf_sp.specs.Kirchhoff.{ObeysKirchhoff};
ghost use Rattle.wdf_sp.specs.Structure.{Meets};
ghost use Rattle.wdf_sp.specs.StructureLaws.{Ends, HasReversal};
ghost use Rattle.wdf_sp.specs.WorkedCircuits.{AreWorkedCircuits};

use wdf_law::Net;
use wdf_netlist::Circuit;

/// Circuits whose reduction and root were worked by hand are reduced and rooted so.
pub fn worked_circuits()
    ensures { AreWorkedCircuits }
{}

/// A network turned round spans from its end to its beginning; turned twice it is the same.
pub fn reversal()
    ensures { HasReversal }
{}

/// The reduction ends where neither rule applies.
pub fn reduction_ends()
    ensures { Ends }
{}

/// In every step that loses nothing, the network obeys Kirchhoff's laws of the circuit that its two
/// trees span.
///
/// Each element of the circuit has one port. Each node has a potential, and the voltage across an
/// element is that of its first node less that of its second. At each node the currents through the
/// elements add to zero.
pub fn potentials(circuit: &Circuit, net: &Net)
    requires { Meets (branches circuit.now.elements) (record { left = outline_of net.now.left; right = outline_of net.now.right }) }
    ensures { ObeysKirchhoff (branches circuit.now.elements) net.now }
{
    circuit.rules();
    net.rules();
}
