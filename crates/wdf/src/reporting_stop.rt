//! Why no report was written.

ghost use Rattle.std.specs.Prelude.{◌≡◌};
ghost use Rattle.wdf.specs.declared.reporting_stop.ReportingStop.TheVariants.{Bound, Networks, NoMemory, Write};

use crate::NetworksStop;
use std::alloc::AllocError;
use wdf_io::Failed;
use wdf_stages::BoundStop;

/// Why no report was written.
#[derive(Drop)]
pub enum ReportingStop {
    /// There are no networks.
    Networks(NetworksStop),
    /// The plan does not fit them.
    Bound(BoundStop),
    /// There was no memory for the text.
    NoMemory,
    /// The write of the text failed.
    Write,
}

impl From<NetworksStop> for ReportingStop {
    ghost from_gives = { λ stop s. s ≡ Networks stop };

    fn from(stop: NetworksStop) -> Self {
        ReportingStop::Networks(stop)
    }
}

impl From<BoundStop> for ReportingStop {
    ghost from_gives = { λ stop s. s ≡ Bound stop };

    fn from(stop: BoundStop) -> Self {
        ReportingStop::Bound(stop)
    }
}

impl From<AllocError> for ReportingStop {
    ghost from_gives = { λ _ s. s ≡ NoMemory };

    fn from(_: AllocError) -> Self {
        ReportingStop::NoMemory
    }
}

impl From<Failed> for ReportingStop {
    ghost from_gives = { λ _ s. s ≡ Write };

    fn from(_: Failed) -> Self {
        ReportingStop::Write
    }
}
