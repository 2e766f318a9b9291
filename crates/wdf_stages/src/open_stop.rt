//! Why the wave on the input is not run.

ghost use Rattle.std.specs.Prelude.{◌≡◌};
ghost use Rattle.wdf_stages.specs.Opening.{open_stop_of};

use wdf_wav::{WavError, WavKind};

/// Why the wave on the input is not run.
#[derive(Clone, Copy, Debug, PartialEq, Eq)]
pub enum OpenStop {
    /// The input's head has this fault, at this byte from the beginning.
    BadWave { kind: WavKind, at: u64 },
    /// The netlist and the wave have these rates, in frames per second, which differ.
    RateMismatch { netlist: u32, wave: u32 },
    /// The netlist has `want` sources, more than one, and the wave has `have` channels.
    ChannelCount { have: u16, want: u16 },
    /// The wave states so many frames, more than the limit.
    TooLong { frames: u32, limit: u32 },
    /// The input failed: its count of faults rose in the call.
    ReadFault,
}

impl From<WavError> for OpenStop {
    ghost from_gives = { λ error s. s ≡ open_stop_of error };

    fn from(error: WavError) -> Self {
        match error {
            WavError::Fault { kind, at } => OpenStop::BadWave { kind, at },
            WavError::ReadFault => OpenStop::ReadFault,
        }
    }
}
