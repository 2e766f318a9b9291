//! What is told leaves each stage one answer: two answers that its contract allows, neither of them
//! a fault nor want of memory, are equal. Each function is a law, whose contract is proved.

ghost use Rattle.wdf_certificates.specs.CertLaws.{HasOneCertifying, HasOneLoading, HasOneChecking};

/// A netlist's networks leave one answer to the making of their certificates.
pub fn one_certifying()
    ensures { HasOneCertifying }
{
    wdf_cert::laws::one_making();
}

/// Told files leave one answer to the load of certificates.
pub fn one_loading()
    ensures { HasOneLoading }
{
    wdf_stages::laws::one_file();
    wdf_cert::laws::round_trip();
    wdf_cert::laws::one_fault();
}

/// Networks and certificates leave one answer to the check.
pub fn one_checking()
    ensures { HasOneChecking }
{
    wdf_check::laws::one_check();
}
