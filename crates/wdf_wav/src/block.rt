ghost use Rattle.std.specs.Prelude.{◌≡◌, ◌*◌, ◌%◌, ◌<◌, ◌≤◌, length, IfOk, OnErr};
ghost use Rattle.std.specs.Io.KnownBytes.{Consumes, IsAtEnd};
ghost use Rattle.wdf_io.specs.Causes.{HasCause};
ghost use Rattle.wdf_io.specs.Moved.{ConsumesAtMost};
ghost use Rattle.wdf_wav.specs.FrameBlock.{ReadsFrames};
ghost use Rattle.wdf_wav.specs.Header.{IsFrameFormat, block_align};

use crate::Head;
use wdf_io::{Failed, Source, take_exact};

/// Fills `buf` with frames of a wave's data, and says how many of them are whole.
///
/// `buf` holds a whole number of frames of `channels · bits / 8` bytes, and the head has 1 to 8
/// channels of 8, 16, 24 or 32 bits. Fewer frames than `buf` holds come only at the end of the
/// input; a part of one more frame may then have been read too, and stands behind the whole ones.
/// Nothing is said of what stands behind the bytes that were read. The head's number of frames is for
/// the caller to keep to: the input may go on after the data.
///
/// # Errors
///
/// `Failed` only where the source's count of faults rose. Some bytes may then be taken from the
/// source, at most as many as `buf` holds, and nothing is said of `buf`.
#[tactic(auto, using(crate::proofs::FrameBlockLemmas::whole_frames, crate::proofs::FrameBlockLemmas::part_of_frame))]
pub fn read_block<S: Source>(src: &mut S, head: &Head, buf: &mut [u8]) -> Result<usize, Failed>
    requires format { IsFrameFormat head.now.channels head.now.bits }
    requires frames { length buf.old % block_align head.now ≡ 0 }

    ensures bound { IfOk result (λ n. n * block_align head.now ≤ length buf.new) }
    ensures bytes { let align = block_align head.now in
        IfOk result (λ n. ReadsFrames (S.left src.old) (S.left src.new) align n buf.new) }

    // Where all frames are whole, just the bytes of the buffer were read.
    ensures full { IfOk result (λ n. n * block_align head.now ≡ length buf.new
        → Consumes (S.left src.old) (S.left src.new) buf.new) }
    ensures short { IfOk result (λ n. n * block_align head.now < length buf.new
        → IsAtEnd (S.left src.new)) }

    ensures taken { OnErr result
        (ConsumesAtMost (S.left src.old) (S.left src.new) (length buf.old)) }
    ensures cause { HasCause (S.faults src.old) (S.faults src.new) result }
{
    let count = take_exact(src, buf)?;
    Ok(count / usize::from(head.block_align()))
}
