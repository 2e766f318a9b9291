//! The parts of a head: each is taken whole, or the input ends within it.

ghost use Rattle.std.specs.Prelude.{◌≡◌, ◌+◌, ◌^◌, ◌<◌, ◌≤◌, length, IfOk, OnOk, IfErr};
ghost use Rattle.std.specs.Str.{bytes_eq};
ghost use Rattle.std.specs.Io.KnownBytes.{Consumes};
ghost use Rattle.wdf_wav.specs.HeadReading.{PartStops, TakesNumber, TakesBytes};
ghost use Rattle.wdf_wav.specs.WaveHead.{HeadHasCause};

use crate::wav_error::{WavError, WavKind, fault};
use byteorder::{ByteOrder, LittleEndian};
use wdf_io::{Source, take_exact};

/// The most bytes that are passed over at once.
const BLOCK: u64 = 4096;

/// Takes the part that begins at offset `at` and is as long as `part`.
pub(crate) fn take_part<S: Source>(src: &mut S, at: u64, part: &mut [u8]) -> Result<(), WavError>
    requires { at + length part.old < 2 ^ 64 }
    ensures ok { OnOk result (Consumes (S.left src.old) (S.left src.new) part.new) }
    ensures stop { IfErr result (PartStops (length part.old) at (S.left src.old)) }
    ensures cause { HeadHasCause (S.faults src.old) (S.faults src.new) result }
{
    let count = take_exact(src, part)?;
    if count < part.len() {
        return Err(fault(WavKind::ShortHead, at + count as u64));
    }
    Ok(())
}

/// Takes the number of 32 bits at offset `at`.
pub(crate) fn take_number<S: Source>(src: &mut S, at: u64) -> Result<u32, WavError>
    requires { at + 4 < 2 ^ 64 }
    ensures ok { IfOk result (TakesNumber (S.left src.old) (S.left src.new)) }
    ensures stop { IfErr result (PartStops 4 at (S.left src.old)) }
    ensures cause { HeadHasCause (S.faults src.old) (S.faults src.new) result }
{
    let mut bytes = [0; 4];
    take_part(src, at, &mut bytes)?;
    Ok(LittleEndian::read_u32(&bytes))
}

/// Takes the part of `count` bytes at offset `at`, and keeps none of it.
pub(crate) fn pass_over<S: Source>(src: &mut S, at: u64, count: u64) -> Result<(), WavError>
    requires { at + count < 2 ^ 64 }
    ensures ok { OnOk result (TakesBytes count (S.left src.old) (S.left src.new)) }
    ensures stop { IfErr result (PartStops count at (S.left src.old)) }
    ensures cause { HeadHasCause (S.faults src.old) (S.faults src.new) result }
{
    let mut block = [0; BLOCK as usize];
    let mut done = 0;
    while done < count {
        let next = (count - done).min(BLOCK);
        take_part(src, at + done, &mut block[..next as usize])?;
        done += next;
    }
    Ok(())
}

/// Whether these four bytes are this name.
pub(crate) fn is_id(id: &[u8], name: &[u8]) -> bool
    ensures { result ≡ bytes_eq id.now name.now }
{
    id == name
}
