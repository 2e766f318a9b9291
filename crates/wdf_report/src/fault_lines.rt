//! The line that says why the program did not do its work.

ghost use Rattle.std.specs.Prelude.{◌≡◌, ◌≢◌, ◌+◌, ◌^◌, ◌<◌, ◌≤◌, ◌++◌, Bool, if◌then◌else◌, codes, decimal, length};
ghost use Rattle.std.specs.Fmt.{signed_decimal};
ghost use Rattle.wdf_check.specs.declared.cert_fault.CertFault.TheVariants as faults;
ghost use Rattle.wdf_report.specs.FaultLine.{HasFaultLine, branch_text, element_text, fault_line_of, fault_text, name_text, refusal_text};

use crate::kind_names::{netlist_name, usage_name, wave_name};
use crate::{Status, UsageKind};
use wdf_check::CertFault;
use wdf_law::Side;
use wdf_netlist::NetFault;
use wdf_sp::Edges;
use wdf_text::{Line, MAX_LINE, Name};
use wdf_wav::WavKind;

// A label and the number behind it.
fn push_number(line: &mut Line, label: &[u8], n: u64)
    requires room { length line.old + length label.now + 20 ≤ MAX_LINE }
    ensures text { line.new ≡ line.old ++ label.now ++ decimal n }
    ensures short { length line.new ≤ length line.old + length label.now + 20 }
{
    line.push(label);
    line.push_u128(u128::from(n));
}

/// Appends a label and the decimal digits of a number behind it.
pub fn push_wide(line: &mut Line, label: &[u8], n: u128)
    requires room { length line.old + length label.now + 39 ≤ MAX_LINE }
    ensures text { line.new ≡ line.old ++ label.now ++ decimal n }
    ensures short { length line.new ≤ length line.old + length label.now + 39 }
{
    line.push(label);
    line.push_u128(n);
}

// A label and the number with its sign behind it.
fn push_signed(line: &mut Line, label: &[u8], n: i64)
    requires room { length line.old + length label.now + 20 ≤ MAX_LINE }
    ensures text { line.new ≡ line.old ++ label.now ++ signed_decimal n }
    ensures short { length line.new ≤ length line.old + length label.now + 20 }
{
    line.push(label);
    line.push_i128(i128::from(n));
}

// A label and the name behind it.
#[tactic(auto, using(crate::proofs::LengthLemmas::name_short))]
fn push_name(line: &mut Line, label: &[u8], name: Name)
    requires room { length line.old + length label.now + 16 ≤ MAX_LINE }
    ensures text { line.new ≡ line.old ++ label.now ++ name }
    ensures short { length line.new ≤ length line.old + length label.now + 16 }
{
    line.push(label);
    line.push(name.as_bytes());
}

/// Appends `branch A ` or `branch B `, and nothing where the circuit is a ladder's.
pub fn push_branch(line: &mut Line, side: Side)
    requires room { length line.old + 9 ≤ MAX_LINE }
    ensures text { line.new ≡ line.old ++ branch_text side }
    ensures short { length line.new ≤ length line.old + 9 }
{
    match side {
        Side::Whole => (),
        Side::A => line.push(b"branch A "),
        Side::B => line.push(b"branch B "),
    }
}

// Where it is, and at which element.
fn push_element(line: &mut Line, side: Side, element: Name)
    requires room { length line.old + 33 ≤ MAX_LINE }
    ensures text { line.new ≡ line.old ++ element_text side element }
    ensures short { length line.new ≤ length line.old + 33 }
{
    push_branch(line, side);
    push_name(line, b"element ", element);
}

// One of two pieces.
fn push_choice(line: &mut Line, is: bool, yes: &[u8], no: &[u8])
    requires room { length line.old + length yes.now + length no.now ≤ MAX_LINE }
    ensures text { line.new ≡ line.old ++ (if is then yes.now else no.now) }
    ensures short { length line.new ≤ length line.old + length yes.now + length no.now }
{
    line.push(if is { yes } else { no });
}

fn push_usage(line: &mut Line, word: usize, kind: UsageKind)
    requires room { length line.old + 120 ≤ MAX_LINE }
    ensures text { line.new ≡ line.old ++ fault_text (Status.Usage word kind) }
    ensures short { length line.new ≤ length line.old + 120 }
{
    push_number(line, b"usage word ", word as u64);
    line.push(b" ");
    line.push(usage_name(kind));
}

fn push_netlist(line: &mut Line, fault: NetFault)
    requires room { length line.old + 120 ≤ MAX_LINE }
    ensures text { line.new ≡ line.old ++ fault_text (Status.NetText fault) }
    ensures short { length line.new ≤ length line.old + 120 }
{
    push_number(line, b"netlist line ", u64::from(fault.line));
    push_number(line, b" column ", u64::from(fault.column));
    line.push(b" ");
    line.push(netlist_name(fault.kind));
    match fault.name {
        Some(name) => push_name(line, b" ", name),
        None => (),
    }
}

fn push_core(line: &mut Line, side: Side, element: Name, core: &Edges)
    requires room { length line.old + 120 ≤ MAX_LINE }
    ensures text { line.new ≡ line.old ++ fault_text (Status.NotSeriesParallel side element core.now) }
    ensures short { length line.new ≤ length line.old + 120 }
{
    line.push(b"not series-parallel ");
    push_element(line, side, element);
    push_number(line, b" core ", core.list().len() as u64);
}

fn push_range(line: &mut Line, side: Side, element: Name, low: bool)
    requires room { length line.old + 120 ≤ MAX_LINE }
    ensures text { line.new ≡ line.old ++ fault_text (Status.PortRange side element low) }
    ensures short { length line.new ≤ length line.old + 120 }
{
    line.push(b"port range ");
    push_element(line, side, element);
    push_choice(line, low, b" low", b" high");
}

fn push_bound(line: &mut Line, side: Side, element: Name, ratio: bool, need: u128, limit: u64)
    requires room { length line.old + 120 ≤ MAX_LINE }
    ensures text { line.new ≡ line.old ++ fault_text (Status.Bound side element ratio need limit) }
    ensures short { length line.new ≤ length line.old + 120 }
{
    line.push(b"bound ");
    push_element(line, side, element);
    push_choice(line, ratio, b" ratio", b" word");
    push_wide(line, b" need ", need);
    push_number(line, b" limit ", limit);
}

fn push_wave(line: &mut Line, kind: WavKind, at: u64)
    requires room { length line.old + 120 ≤ MAX_LINE }
    ensures text { line.new ≡ line.old ++ fault_text (Status.BadWave kind at) }
    ensures short { length line.new ≤ length line.old + 120 }
{
    push_number(line, b"wave offset ", at);
    line.push(b" ");
    line.push(wave_name(kind));
}

fn push_amplitude(line: &mut Line, frame: u32, channel: u16, sample: i64)
    requires room { length line.old + 120 ≤ MAX_LINE }
    ensures text { line.new ≡ line.old ++ fault_text (Status.Amplitude frame channel sample) }
    ensures short { length line.new ≤ length line.old + 120 }
{
    push_number(line, b"amplitude frame ", u64::from(frame));
    push_number(line, b" channel ", u64::from(channel));
    push_signed(line, b" sample ", sample);
}

fn push_unobservable(line: &mut Line, side: Side, element: Name)
    requires room { length line.old + 120 ≤ MAX_LINE }
    ensures text { line.new ≡ line.old ++ codes "unobservable " ++ branch_text side ++ codes "state " ++ element }
    ensures short { length line.new ≤ length line.old + 120 }
{
    line.push(b"unobservable ");
    push_branch(line, side);
    push_name(line, b"state ", element);
}

fn push_certificate_text(line: &mut Line, at: usize, range: bool)
    requires room { length line.old + 120 ≤ MAX_LINE }
    ensures text { line.new ≡ line.old ++ fault_text (Status.CertText at range) }
    ensures short { length line.new ≤ length line.old + 120 }
{
    push_number(line, b"certificate offset ", at as u64);
    push_choice(line, range, b" range", b" syntax");
}

// Why a certificate is refused.
fn push_refusal(line: &mut Line, fault: CertFault)
    requires room { length line.old + 90 ≤ MAX_LINE }
    ensures text { line.new ≡ line.old ++ refusal_text fault }
    ensures short { length line.new ≤ length line.old + 90 }
{
    match fault {
        CertFault::OtherNet { at, ours, theirs } => {
            push_number(line, b"net at ", at as u64);
            push_number(line, b" ours ", u64::from(ours));
            push_number(line, b" theirs ", u64::from(theirs));
        }
        CertFault::WrongSize { have, want } => {
            push_number(line, b"size have ", have as u64);
            push_number(line, b" want ", want as u64);
        }
        CertFault::WrongCount { have, want } => {
            push_number(line, b"count have ", have as u64);
            push_number(line, b" want ", want as u64);
        }
        CertFault::BadRow { row } => push_number(line, b"row ", row as u64),
        CertFault::WrongProduct { row, col, got } => {
            push_number(line, b"product row ", row as u64);
            push_number(line, b" column ", col as u64);
            push_number(line, b" got ", got);
        }
        CertFault::NoMemory => (),
    }
}

fn push_certificate(line: &mut Line, side: Side, fault: CertFault)
    requires room { length line.old + 120 ≤ MAX_LINE }
    ensures text { line.new ≡ line.old ++ fault_text (Status.CertWrong side fault) }
    ensures short { length line.new ≤ length line.old + 120 }
{
    line.push(b"certificate wrong ");
    push_branch(line, side);
    push_refusal(line, fault);
}

fn push_rates(line: &mut Line, netlist: u32, wave: u32)
    requires room { length line.old + 120 ≤ MAX_LINE }
    ensures text { line.new ≡ line.old ++ fault_text (Status.RateMismatch netlist wave) }
    ensures short { length line.new ≤ length line.old + 120 }
{
    push_number(line, b"rate netlist ", u64::from(netlist));
    push_number(line, b" wave ", u64::from(wave));
}

fn push_length(line: &mut Line, frames: u32, limit: u32)
    requires room { length line.old + 120 ≤ MAX_LINE }
    ensures text { line.new ≡ line.old ++ fault_text (Status.TooLong frames limit) }
    ensures short { length line.new ≤ length line.old + 120 }
{
    push_number(line, b"too long frames ", u64::from(frames));
    push_number(line, b" limit ", u64::from(limit));
}

fn push_truncated(line: &mut Line, frames: u32)
    requires room { length line.old + 120 ≤ MAX_LINE }
    ensures text { line.new ≡ line.old ++ fault_text (Status.Truncated frames) }
    ensures short { length line.new ≤ length line.old + 120 }
{
    push_number(line, b"truncated frames ", u64::from(frames));
}

fn push_missing(line: &mut Line, word: usize)
    requires room { length line.old + 120 ≤ MAX_LINE }
    ensures text { line.new ≡ line.old ++ fault_text (Status.Missing word) }
    ensures short { length line.new ≤ length line.old + 120 }
{
    push_number(line, b"missing word ", word as u64);
}

fn push_large(line: &mut Line, word: usize)
    requires room { length line.old + 120 ≤ MAX_LINE }
    ensures text { line.new ≡ line.old ++ fault_text (Status.FileTooLarge word) }
    ensures short { length line.new ≤ length line.old + 120 }
{
    push_number(line, b"file too large word ", word as u64);
}

fn push_channels(line: &mut Line, have: u16, want: u16)
    requires room { length line.old + 120 ≤ MAX_LINE }
    ensures text { line.new ≡ line.old ++ fault_text (Status.ChannelCount have want) }
    ensures short { length line.new ≤ length line.old + 120 }
{
    push_number(line, b"channels have ", u64::from(have));
    push_number(line, b" want ", u64::from(want));
}

// The text of an answer.
fn push_text(line: &mut Line, status: &Status)
    requires room { length line.old + 120 ≤ MAX_LINE }
    ensures text { line.new ≡ line.old ++ fault_text status.now }
    ensures short { length line.new ≤ length line.old + 120 }
{
    match status {
        Status::Done => (),
        Status::Usage { word, kind } => push_usage(line, *word, *kind),
        Status::NetText { fault } => push_netlist(line, *fault),
        Status::NotSeriesParallel {
            side,
            element,
            core,
        } => push_core(line, *side, *element, core),
        Status::PortRange { side, element, low } => push_range(line, *side, *element, *low),
        Status::Bound {
            side,
            element,
            ratio,
            need,
            limit,
        } => push_bound(line, *side, *element, *ratio, *need, *limit),
        Status::BadWave { kind, at } => push_wave(line, *kind, *at),
        Status::RateMismatch { netlist, wave } => push_rates(line, *netlist, *wave),
        Status::TooLong { frames, limit } => push_length(line, *frames, *limit),
        Status::Amplitude {
            frame,
            channel,
            sample,
        } => push_amplitude(line, *frame, *channel, *sample),
        Status::Truncated { frames } => push_truncated(line, *frames),
        Status::Unobservable { side, element, .. } => push_unobservable(line, *side, *element),
        Status::CertText { at, range } => push_certificate_text(line, *at, *range),
        Status::CertWrong { side, fault } => push_certificate(line, *side, *fault),
        Status::ReadFault => line.push(b"read fault"),
        Status::WriteFault => line.push(b"write fault"),
        Status::NoteFault => line.push(b"note fault"),
        Status::LoadFault => line.push(b"load fault"),
        Status::Missing { word } => push_missing(line, *word),
        Status::FileTooLarge { word } => push_large(line, *word),
        Status::NoMemory => line.push(b"no memory"),
        Status::ChannelCount { have, want } => push_channels(line, *have, *want),
    }
}

/// The line that says why the program did not do its work, ended by LF, as `docs/report.md` has it for
/// each answer; empty where all was done. It takes no memory.
pub fn fault_line(status: &Status) -> Line
    requires line { HasFaultLine status.now }
    ensures text { result ≡ fault_line_of status.now }
{
    let mut line = Line::new();
    let code = status.code();
    if code == 0 {
        return line;
    }
    push_number(&mut line, b"wdf: ", u64::from(code));
    line.push(b" ");
    push_text(&mut line, status);
    line.push(b"\n");
    line
}
