//! What the definitions of `specs/` imply: each function is a law, whose contract is proved and
//! whose body only calls laws of the crates below.
ghost use Rattle.wdf_reporting.specs.ReportLaws.{HasOneReport};
ghost use Rattle.wdf_reporting.specs.WorkedNotes.{AreWorkedNotes};

/// A note worked by another program has the texts of the definitions.
pub fn worked_notes()
    ensures { AreWorkedNotes }
{}

/// A netlist and its networks have one report under a plan: `certified yes` exactly where a network
/// has a certificate, and `certified no` exactly where it has an obstruction.
pub fn one_report()
    ensures { HasOneReport }
{
    wdf_cert::laws::one_making();
}
