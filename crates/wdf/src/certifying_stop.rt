//! Why no certificates were written.

ghost use Rattle.std.specs.Prelude.{◌≡◌};
ghost use Rattle.wdf.specs.declared.certifying_stop.CertifyingStop.TheVariants.{Certify, Networks, Write};

use crate::NetworksStop;
use wdf_certificates::CertifyStop;
use wdf_io::Failed;

/// Why no certificates were written.
#[derive(Drop)]
pub enum CertifyingStop {
    /// There are no networks.
    Networks(NetworksStop),
    /// A network has no certificate.
    Certify(CertifyStop),
    /// The write of the text failed.
    Write,
}

impl From<NetworksStop> for CertifyingStop {
    ghost from_gives = { λ stop s. s ≡ Networks stop };

    fn from(stop: NetworksStop) -> Self {
        CertifyingStop::Networks(stop)
    }
}

impl From<CertifyStop> for CertifyingStop {
    ghost from_gives = { λ stop s. s ≡ Certify stop };

    fn from(stop: CertifyStop) -> Self {
        CertifyingStop::Certify(stop)
    }
}

impl From<Failed> for CertifyingStop {
    ghost from_gives = { λ _ s. s ≡ Write };

    fn from(_: Failed) -> Self {
        CertifyingStop::Write
    }
}
