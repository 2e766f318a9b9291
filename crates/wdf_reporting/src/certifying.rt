//! Whether a network has a certificate.

ghost use Rattle.std.specs.Prelude.{IfOk};
ghost use Rattle.wdf_reporting.specs.Findings.{IsFinding};

use std::alloc::{AllocError, Global};
use wdf_cert::{MakeFault, make};
use wdf_law::Net;

/// Whether a network has a certificate; where it has none it has an obstruction.
///
/// # Errors
///
/// Where no memory is left.
pub fn is_certified(alloc: Global, net: &Net) -> Result<bool, AllocError>
    ensures { IfOk result (IsFinding net.now) }
{
    match make(alloc, net) {
        Ok(cert) => {
            cert.inverse();
            Ok(true)
        }
        Err(MakeFault::Unobservable { .. }) => Ok(false),
        Err(MakeFault::NoMemory) => Err(AllocError),
    }
}
