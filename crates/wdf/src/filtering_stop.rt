//! Why a wave was not filtered, or not to its end, or was not told of.

ghost use Rattle.std.specs.Prelude.{◌≡◌};
ghost use Rattle.wdf.specs.declared.filtering_stop.FilteringStop.TheVariants.{Begin, Frame, Note};

use crate::BeginningStop;
use wdf_frames::FrameStop;
use wdf_io::Failed;

/// Why a wave was not filtered, or not to its end, or was not told of.
#[derive(Drop)]
pub enum FilteringStop {
    /// The run did not begin.
    Begin(BeginningStop),
    /// It stopped at a frame.
    Frame(FrameStop),
    /// The write of the note failed.
    Note,
}

impl From<BeginningStop> for FilteringStop {
    ghost from_gives = { λ stop s. s ≡ Begin stop };

    fn from(stop: BeginningStop) -> Self {
        FilteringStop::Begin(stop)
    }
}

impl From<FrameStop> for FilteringStop {
    ghost from_gives = { λ stop s. s ≡ Frame stop };

    fn from(stop: FrameStop) -> Self {
        FilteringStop::Frame(stop)
    }
}

impl From<Failed> for FilteringStop {
    ghost from_gives = { λ _ s. s ≡ Note };

    fn from(_: Failed) -> Self {
        FilteringStop::Note
    }
}
