//! What the definitions of `specs/` imply: each function is a law, whose contract is proved.
ghost use Rattle.wdf_design.specs.DesignLaws.{HasOneDesign};
ghost use Rattle.wdf_design.specs.WorkedDesigns.{AreWorkedDesigns};

use wdf_netlist::Netlist;

/// Netlists whose networks or refusals were worked by hand have these.
pub fn worked_designs()
    ensures { AreWorkedDesigns }
{}

/// A netlist and a width have one answer but for want of memory.
#[tactic(auto, using(crate::proofs::DesignLemmas::one_design))]
pub fn one_design(netlist: &Netlist)
    ensures { HasOneDesign netlist.now }
{
    let _ = netlist;
}
