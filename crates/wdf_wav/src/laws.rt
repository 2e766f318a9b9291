//! Laws of the format. Each is a contract over the definitions of `specs/`, which a caller gets by
//! calling it; its body is empty.

ghost use Rattle.wdf_algebra.specs.Samples.{IsSampleWidth};
ghost use Rattle.wdf_wav.specs.HeadLaws.{HasNoFront, IsAnswered, IsEither, IsOneFault, IsOneHead, IsStream, ReadsWave};
ghost use Rattle.wdf_wav.specs.Header.{IsFrameFormat, IsPcmHead, head_bytes_of};
ghost use Rattle.wdf_wav.specs.Laws.{CodesOneSample, CountsBytes, CountsSamples, DataAppends, HoldsOneSample, HoldsSampleAt, SamplesAppend};
ghost use Rattle.wdf_wav.specs.WaveHead.{IsHeaded};

use crate::Head;

/// How many samples bytes hold, how many bytes samples take, and that more of the one adds to the
/// other.
pub fn data_append(bits: u16)
    requires { IsSampleWidth bits }
    ensures one_read { HoldsOneSample bits }
    ensures one_coded { CodesOneSample bits }
    ensures read { SamplesAppend bits }
    ensures coded { DataAppends bits }
    ensures samples { CountsSamples bits }
    ensures bytes { CountsBytes bits }
{}

/// Where in the data the sample of a channel in a frame stands.
pub fn sample_place(head: &Head)
    requires { IsFrameFormat head.now.channels head.now.bits }
    ensures { HoldsSampleAt head.now }
{}

/// Each text has one answer: it begins with the text of one head, or it has one first fault.
pub fn one_answer()
    ensures head { IsOneHead }
    ensures fault { IsOneFault }
    ensures either { IsEither }
    ensures answered { IsAnswered }
{}

/// A head that was read, and then the bytes of all its frames, are a wave.
pub fn head_and_frames()
    ensures { ReadsWave }
{}

/// The header that is written is the text of its head, no shorter front of it is the text of any
/// head, and a wave in the plain form is a wave. The head has 1 to 8 channels of 8, 16, 24 or 32
/// bits, a rate of at most 1,000,000, and data below 0xFFFFFF00 bytes.
pub fn round_trip(head: &Head)
    requires { IsPcmHead head.now }
    ensures head { IsHeaded (head_bytes_of head.now) head.now }
    ensures front { HasNoFront head.now }
    ensures stream { IsStream head.now }
{}
