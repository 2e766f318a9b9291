//! The head of the wave that is run.

ghost use Rattle.std.specs.Prelude.{◌≡◌, ◌≤◌, IfOk, IfErr, IsErrOf};
ghost use Rattle.wdf_io.specs.Causes.{Rose};
ghost use Rattle.wdf_wav.specs.Header.{IsPcmHead};
ghost use Rattle.wdf_stages.specs.Opening.{Opens, OpenRefuses, source_count_of, terms_of};

use crate::OpenStop;
use wdf_io::Source;
use wdf_netlist::{Form, Netlist};
use wdf_wav::{Head, read_head};

/// How many sources the wave drives: those of a ladder, and one of a lattice.
pub fn source_count(form: &Form) -> u16
    ensures count { result ≡ source_count_of form.now }
    ensures some { 1 ≤ result }
    ensures few { result ≤ 8 }
{
    match form {
        Form::Ladder(circuit) => circuit.source_count() as u16,
        Form::Lattice { .. } => 1,
    }
}

/// Reads the head of the wave that is run by a netlist, and leaves the first byte of its data next.
///
/// The wave has the netlist's rate and at most `limit` frames. Where the netlist has several sources
/// it has a channel for each of them.
///
/// # Errors
///
/// `ReadFault` only where the input's count of faults rose. Else the first, by the input: `BadWave`
/// exactly where it has no head, with its first fault; `RateMismatch`, `ChannelCount` and `TooLong`
/// exactly where its head is not as said above, and then the input lost its head and no more.
pub fn open_wave<I: Source>(input: &mut I, netlist: &Netlist, limit: u32) -> Result<Head, OpenStop>
    ensures opens { IfOk result (Opens (terms_of netlist.now limit) (I.left input.old) (I.left input.new)) }
    ensures valid { IfOk result IsPcmHead }
    ensures refused { IfErr result (OpenRefuses (terms_of netlist.now limit) (I.left input.old) (I.left input.new)) }
    ensures later { I.faults input.old ≤ I.faults input.new }
    ensures read_fault { IsErrOf result OpenStop.ReadFault → Rose (I.faults input.old) (I.faults input.new) }
{
    let head = read_head(input)?;
    let rate = netlist.rate();
    if head.rate != rate {
        return Err(OpenStop::RateMismatch {
            netlist: rate,
            wave: head.rate,
        });
    }
    let sources = source_count(netlist.form());
    if sources > 1 && head.channels != sources {
        return Err(OpenStop::ChannelCount {
            have: head.channels,
            want: sources,
        });
    }
    if head.frames > limit {
        return Err(OpenStop::TooLong {
            frames: head.frames,
            limit,
        });
    }
    Ok(head)
}
