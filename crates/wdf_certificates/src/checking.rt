//! The check of certificates against the networks.

ghost use Rattle.std.specs.Prelude.{◌≡◌, OnOk, IfErr};
ghost use Rattle.wdf_certificates.specs.CertChecking.{CertifiesEach, CheckRefuses};
ghost use Rattle.wdf_certificates.specs.CertStages.{ChecksOne};
ghost use Rattle.wdf_law.specs.declared.side.Side.TheVariants.{Whole};

use crate::CheckStop;
use std::alloc::Global;
use wdf_cert::Certs;
use wdf_check::{Cert, CertFault, check};
use wdf_lattice::Networks;
use wdf_law::{Net, Side};

// The check of the certificate of a side.
fn check_one(alloc: Global, side: Side, net: &Net, cert: &Cert) -> Result<(), CheckStop>
    ensures { ChecksOne side net.now cert.now result }
{
    match check(alloc, net, cert) {
        Ok(()) => Ok(()),
        Err(CertFault::NoMemory) => Err(CheckStop::NoMemory),
        Err(fault) => Err(CheckStop::CertWrong { side, fault }),
    }
}

// More or fewer certificates than networks.
fn wrong_count(have: usize, want: usize) -> CheckStop
    ensures { result ≡ CheckStop.CertWrong Whole (CertFault.WrongCount have want) }
{
    CheckStop::CertWrong {
        side: Side::Whole,
        fault: CertFault::WrongCount { have, want },
    }
}

/// Whether there is a certificate for each network, the first for a ladder's or branch A's and the
/// second for branch B's, and each certifies its network.
///
/// # Errors
///
/// `CertWrong` exactly where that is not so: of another number of certificates, else of the first
/// that is refused, branch A before branch B, as [`check`](wdf_check::check) refuses it. `NoMemory`
/// where no memory is left.
pub fn check_certs(alloc: Global, networks: &Networks, certs: &Certs) -> Result<(), CheckStop>
    ensures certified { OnOk result (CertifiesEach networks.now certs.now.first certs.now.second) }
    ensures refused { IfErr result (CheckRefuses networks.now certs.now.first certs.now.second) }
{
    match (networks, &certs.second) {
        (Networks::Ladder(net), None) => check_one(alloc, Side::Whole, net, &certs.first),
        (Networks::Ladder(_), Some(_)) => Err(wrong_count(2, 1)),
        (Networks::Lattice { .. }, None) => Err(wrong_count(1, 2)),
        (Networks::Lattice { a, b }, Some(second)) => {
            check_one(alloc, Side::A, a, &certs.first)?;
            check_one(alloc, Side::B, b, second)?;
            Ok(())
        }
    }
}
