ghost use Rattle.std.specs.Prelude.{◌≤◌, IfOk, OnOk, IfErr};
ghost use Rattle.wdf_wav.specs.HeadReading.{FormStops, TakesForm};
ghost use Rattle.wdf_wav.specs.Header.{IsReadHead};
ghost use Rattle.wdf_wav.specs.WaveHead.{HeadHasCause, HeadStops, TakesHead};

use crate::Head;
use crate::chunk_reader::read_next;
use crate::next::Next;
use crate::parts::{is_id, take_part};
use crate::seen::Seen;
use crate::wav_error::{WavError, WavKind, fault};
use wdf_io::Source;

/// Reads the head of a wave, and leaves the first byte of its data next.
///
/// A wave is a RIFF file of the form WAVE. The head ends behind the size of the chunk `data`. Before
/// it stand at most 64 chunks, of which one is `fmt ` and tells the channels, the rate and the bits;
/// the others are passed over. The number of frames is that of the whole frames of that size.
///
/// The head has 1 to 8 channels of 8, 16, 24 or 32 bits, a rate of any 32 bits, and data below
/// 0xFFFFFF00 bytes.
///
/// # Errors
///
/// `Fault` with the input's first fault, each kind as [`WavKind`] says, at its offset from the
/// beginning of the input. `ReadFault` only where the source's count of faults rose. Some bytes are
/// then taken.
pub fn read_head<S: Source>(src: &mut S) -> Result<Head, WavError>
    ensures head { IfOk result (TakesHead (S.left src.old) (S.left src.new)) }
    ensures valid { IfOk result IsReadHead }
    ensures fault { IfErr result (HeadStops (S.left src.old)) }
    ensures cause { HeadHasCause (S.faults src.old) (S.faults src.new) result }
{
    read_form(src)?;
    let mut seen = Seen {
        chunks: 0,
        format: None,
        at: 12,
    };
    loop {
        match read_next(src, &seen)? {
            Next::Chunk(passed) => seen = passed,
            Next::Data(head) => return Ok(head),
        }
    }
}

// Reads the twelve bytes before the chunks.
fn read_form<S: Source>(src: &mut S) -> Result<(), WavError>
    ensures ok { OnOk result (TakesForm (S.left src.old) (S.left src.new)) }
    ensures stop { IfErr result (FormStops (S.left src.old)) }
    ensures cause { HeadHasCause (S.faults src.old) (S.faults src.new) result }
{
    let mut id = [0; 4];
    take_part(src, 0, &mut id)?;
    if !is_id(&id, b"RIFF") {
        return Err(fault(WavKind::NotRiff, 0));
    }
    let mut size = [0; 4];
    take_part(src, 4, &mut size)?;
    let mut form = [0; 4];
    take_part(src, 8, &mut form)?;
    if !is_id(&form, b"WAVE") {
        return Err(fault(WavKind::NotWave, 8));
    }
    Ok(())
}
