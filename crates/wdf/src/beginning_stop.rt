//! Why a run did not begin.

ghost use Rattle.std.specs.Prelude.{◌≡◌};
ghost use Rattle.wdf.specs.declared.beginning_stop.BeginningStop.TheVariants.{Bound, Networks, NoMemory, Open};

use crate::NetworksStop;
use std::alloc::AllocError;
use wdf_stages::{BoundStop, OpenStop};

/// Why a run did not begin.
#[derive(Drop)]
pub enum BeginningStop {
    /// There are no networks.
    Networks(NetworksStop),
    /// The input is no wave for them.
    Open(OpenStop),
    /// The plan does not fit them.
    Bound(BoundStop),
    /// There was no memory for its report or for the run.
    NoMemory,
}

impl From<NetworksStop> for BeginningStop {
    ghost from_gives = { λ stop s. s ≡ Networks stop };

    fn from(stop: NetworksStop) -> Self {
        BeginningStop::Networks(stop)
    }
}

impl From<OpenStop> for BeginningStop {
    ghost from_gives = { λ stop s. s ≡ Open stop };

    fn from(stop: OpenStop) -> Self {
        BeginningStop::Open(stop)
    }
}

impl From<BoundStop> for BeginningStop {
    ghost from_gives = { λ stop s. s ≡ Bound stop };

    fn from(stop: BoundStop) -> Self {
        BeginningStop::Bound(stop)
    }
}

impl From<AllocError> for BeginningStop {
    ghost from_gives = { λ _ s. s ≡ NoMemory };

    fn from(_: AllocError) -> Self {
        BeginningStop::NoMemory
    }
}
