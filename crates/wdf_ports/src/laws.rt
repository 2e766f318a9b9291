//! What the definitions of `specs/` say of worked values: a law has an empty body.
ghost use Rattle.wdf_ports.specs.WorkedRatios.{AreWorkedRatios};

/// Ratios that were worked by hand and by another program are those of the definitions.
pub fn worked_ratios()
    ensures { AreWorkedRatios }
{}
