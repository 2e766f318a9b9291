//! The certificate of a network.

ghost use Rattle.wdf_cert.specs.Making.{Makes};

use crate::MakeFault;
use std::alloc::Global;
use wdf_check::{Cert, Kernel, multipliers, observe};
use wdf_law::Net;
use wdf_residue::{Elimination, eliminate};

/// The certificate of a network: of the rows of its observability matrix it names, in order, each
/// that is independent of the rows before it, and it has the inverse of the matrix that they make.
///
/// # Errors
///
/// [`MakeFault::Unobservable`] exactly where a state, not 0 modulo P, is seen by no resistor and no
/// source; or want of memory.
pub fn make(alloc: Global, net: &Net) -> Result<Cert, MakeFault>
    ensures { Makes net.now result }
{
    net.rules();
    let matrix = observe(alloc, net)?;
    match eliminate(alloc, &matrix)? {
        Elimination::Inverse { rows, inverse } => {
            let cert = Cert::new(net.k(), multipliers(alloc, net)?, rows, inverse);
            Ok(cert.unwrap())
        }
        Elimination::Kernel { column, vector } => Err(MakeFault::Unobservable {
            state: column as u32,
            kernel: Kernel::new(vector),
        }),
    }
}
