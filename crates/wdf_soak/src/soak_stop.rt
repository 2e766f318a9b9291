ghost use Rattle.std.specs.Prelude.{◌≡◌};
ghost use Rattle.wdf_soak.specs.declared.soak_stop.SoakStop.TheVariants.{NoMemory};

use std::alloc::AllocError;
use wdf_law::Side;
use wdf_text::Name;

/// Why there is no summary.
#[derive(Clone, Copy, Debug, PartialEq, Eq)]
pub enum SoakStop {
    /// The ratio of a port of the ladder is not in `1..=2^62` units of 2^-40, as
    /// [`DesignStop`](wdf_stages::DesignStop) tells it.
    PortRange {
        side: Side,
        element: Name,
        low: bool,
    },
    /// The plan does not fit the ladder's network, as [`BoundStop`](wdf_stages::BoundStop) tells it.
    Bound {
        side: Side,
        element: Name,
        ratio: bool,
        need: u128,
        limit: u64,
    },
    /// There was no memory.
    NoMemory,
}

impl From<AllocError> for SoakStop {
    ghost from_gives = { λ _ s. s ≡ NoMemory };

    fn from(_: AllocError) -> Self {
        SoakStop::NoMemory
    }
}
