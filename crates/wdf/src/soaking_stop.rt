//! Why no summary was written.

ghost use Rattle.std.specs.Prelude.{◌≡◌};
ghost use Rattle.wdf.specs.declared.soaking_stop.SoakingStop.TheVariants.{Soak, Write};

use wdf_io::Failed;
use wdf_soak::SoakStop;

/// Why no summary was written.
#[derive(Drop)]
pub enum SoakingStop {
    /// There is none.
    Soak(SoakStop),
    /// The write of the text failed.
    Write,
}

impl From<SoakStop> for SoakingStop {
    ghost from_gives = { λ stop s. s ≡ Soak stop };

    fn from(stop: SoakStop) -> Self {
        SoakingStop::Soak(stop)
    }
}

impl From<Failed> for SoakingStop {
    ghost from_gives = { λ _ s. s ≡ Write };

    fn from(_: Failed) -> Self {
        SoakingStop::Write
    }
}
