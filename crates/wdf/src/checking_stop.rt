//! Why certificates were not accepted.

ghost use Rattle.std.specs.Prelude.{◌≡◌};
ghost use Rattle.wdf.specs.declared.checking_stop.CheckingStop.TheVariants.{Check, Load, Networks, Write};

use crate::NetworksStop;
use wdf_certificates::{CheckStop, LoadStop};
use wdf_io::Failed;

/// Why certificates were not accepted.
#[derive(Drop)]
pub enum CheckingStop {
    /// There are no networks.
    Networks(NetworksStop),
    /// There are no certificates.
    Load(LoadStop),
    /// The certificates do not certify the networks.
    Check(CheckStop),
    /// The write of the text failed.
    Write,
}

impl From<NetworksStop> for CheckingStop {
    ghost from_gives = { λ stop s. s ≡ Networks stop };

    fn from(stop: NetworksStop) -> Self {
        CheckingStop::Networks(stop)
    }
}

impl From<LoadStop> for CheckingStop {
    ghost from_gives = { λ stop s. s ≡ Load stop };

    fn from(stop: LoadStop) -> Self {
        CheckingStop::Load(stop)
    }
}

impl From<CheckStop> for CheckingStop {
    ghost from_gives = { λ stop s. s ≡ Check stop };

    fn from(stop: CheckStop) -> Self {
        CheckingStop::Check(stop)
    }
}

impl From<Failed> for CheckingStop {
    ghost from_gives = { λ _ s. s ≡ Write };

    fn from(_: Failed) -> Self {
        CheckingStop::Write
    }
}
