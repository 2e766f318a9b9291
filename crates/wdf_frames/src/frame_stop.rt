/// Why a run of a wave stopped before its end.
#[derive(Clone, Copy, Debug, PartialEq, Eq)]
pub enum FrameStop {
    /// This sample is the first whose magnitude is over the plan's `amp`. Frames and channels count
    /// from 0.
    Amplitude {
        frame: u32,
        channel: u16,
        sample: i64,
    },
    /// The input ended after so many whole frames, fewer than its head states.
    Truncated {
        frames: u32,
    },
    /// The input failed.
    ReadFault,
    /// The output failed.
    WriteFault,
}
