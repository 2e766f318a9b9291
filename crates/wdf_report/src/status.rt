ghost use Rattle.std.specs.Prelude.{◌≡◌};
ghost use Rattle.wdf_report.specs.StatusCode.{code_of};

use crate::UsageKind;
use wdf_check::{CertFault, Kernel};
use wdf_law::Side;
use wdf_netlist::NetFault;
use wdf_sp::Edges;
use wdf_text::Name;
use wdf_wav::WavKind;

/// The answer of the program: done, or why not.
#[derive(Drop)]
pub enum Status {
    /// All was done.
    Done,
    /// The words break the rules of the command line: at this word, counted from 0, or at the number
    /// of words where something is missing.
    Usage {
        word: usize,
        kind: UsageKind,
    },
    /// The netlist's text stands for no netlist.
    NetText {
        fault: NetFault,
    },
    /// The circuit is not series-parallel: its reduction ends in this core, named by an element.
    NotSeriesParallel {
        side: Side,
        element: Name,
        core: Edges,
    },
    /// The ratio of a port is not in `1..=2^62` units of 2^-40: below where `low` is set, else above.
    /// `element` is the port's, or the first of those behind it.
    PortRange {
        side: Side,
        element: Name,
        low: bool,
    },
    /// At the port of `element`, or of those behind it, `need` exceeds `limit`: the bound of the words
    /// there, or, where `ratio` is set, the number that bounds follow from, in units of 2^-40.
    Bound {
        side: Side,
        element: Name,
        ratio: bool,
        need: u128,
        limit: u64,
    },
    /// The input's head has this fault, at this byte from the beginning.
    BadWave {
        kind: WavKind,
        at: u64,
    },
    /// The netlist and the input have these rates, in frames per second, which differ.
    RateMismatch {
        netlist: u32,
        wave: u32,
    },
    /// The input states so many frames, more than the limit.
    TooLong {
        frames: u32,
        limit: u32,
    },
    /// This sample, the first such, is larger than the operand `amp`. Frames and channels count from
    /// 0.
    Amplitude {
        frame: u32,
        channel: u16,
        sample: i64,
    },
    /// The input ended after so many whole frames, fewer than its head states.
    Truncated {
        frames: u32,
    },
    /// No resistor or source ever sees some state, that of `element` and, by the numbers of the
    /// kernel, those before it.
    Unobservable {
        side: Side,
        element: Name,
        kernel: Kernel,
    },
    /// The text is no certificate: at this byte stands another token than the one expected, or, where
    /// `range` is set, a number out of its range.
    CertText {
        at: usize,
        range: bool,
    },
    /// The certificate is refused. Its fault is not `NoMemory`.
    CertWrong {
        side: Side,
        fault: CertFault,
    },
    /// Reading the input failed.
    ReadFault,
    /// Writing the output failed.
    WriteFault,
    /// Writing the note failed.
    NoteFault,
    /// Loading a file failed.
    LoadFault,
    /// There is no file of the name in this word, counted from 0.
    Missing {
        word: usize,
    },
    /// The file of the name in this word holds more than 1,048,576 bytes.
    FileTooLarge {
        word: usize,
    },
    /// There was no memory.
    NoMemory,
    /// The netlist has `want` sources, more than one, and the input has `have` channels.
    ChannelCount {
        have: u16,
        want: u16,
    },
}

impl Status {
    /// The exit status that stands for the answer: 0 where all was done.
    pub fn code(&self) -> u8
        ensures { result ≡ code_of self.now }
    {
        match self {
            Status::Done => 0,
            Status::Usage { .. } => 1,
            Status::NetText { .. } => 2,
            Status::NotSeriesParallel { .. } => 3,
            Status::PortRange { .. } => 4,
            Status::Bound { .. } => 5,
            Status::BadWave { .. } => 6,
            Status::RateMismatch { .. } => 7,
            Status::TooLong { .. } => 8,
            Status::Amplitude { .. } => 9,
            Status::Truncated { .. } => 10,
            Status::Unobservable { .. } => 11,
            Status::CertText { .. } => 12,
            Status::CertWrong { .. } => 13,
            Status::ReadFault => 14,
            Status::WriteFault => 15,
            Status::NoteFault => 16,
            Status::LoadFault => 17,
            Status::Missing { .. } => 18,
            Status::FileTooLarge { .. } => 19,
            Status::NoMemory => 20,
            Status::ChannelCount { .. } => 23,
        }
    }
}
