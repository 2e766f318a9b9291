//! Why no head was read.

ghost use Rattle.std.specs.Prelude.{◌≡◌};
ghost use Rattle.wdf_wav.specs.declared.wav_error.WavError.TheVariants.{ReadFault};

use wdf_io::Failed;

/// What is wrong with the head of a wave.
#[derive(Clone, Copy, Debug, PartialEq, Eq)]
pub enum WavKind {
    /// The first four bytes are not `RIFF`.
    NotRiff,
    /// The bytes 8 to 11 are not `WAVE`.
    NotWave,
    /// The input ends within a part of the head.
    ShortHead,
    /// The input ends where a chunk could begin, before `data`.
    NoData,
    /// There are more than 64 chunks before `data`.
    TooManyChunks,
    /// `data` stands before `fmt `.
    DataFirst,
    /// There is a second `fmt `.
    DoubleFmt,
    /// The size of `fmt ` is below 16 or above 64, or below 40 in an extensible one.
    BadFmtSize,
    /// The tag is neither 1 nor 0xFFFE.
    BadTag,
    /// There are no channels, or more than 8.
    BadChannels,
    /// The bits of a sample are not 8, 16, 24 or 32.
    BadBits,
    /// The bytes of a frame are not channels · bits / 8.
    BadAlign,
    /// The GUID of an extensible `fmt ` is not that of uncompressed PCM.
    BadSubformat,
    /// The size of `data` is 0xFFFFFF00 or more, which stands for an unknown length.
    UnknownLength,
}

/// Why no head was read.
#[derive(Clone, Copy, Debug, PartialEq, Eq)]
pub enum WavError {
    /// The first fault of the input, and its offset in bytes from the beginning.
    Fault { kind: WavKind, at: u64 },
    /// The source failed: its count of faults rose in the call.
    ReadFault,
}

impl From<Failed> for WavError {
    ghost from_gives = { λ _ e. e ≡ ReadFault };

    fn from(_: Failed) -> Self {
        WavError::ReadFault
    }
}

// A fault at an offset.
pub(crate) fn fault(kind: WavKind, at: u64) -> WavError
    ensures { result ≡ WavError.Fault kind at }
{
    WavError::Fault { kind, at }
}
