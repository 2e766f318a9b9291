/// What the header of a wave says of its data.
#[derive(Clone, Copy, Debug, PartialEq, Eq)]
pub struct Head {
    /// The channels, which are the samples of a frame: 1 to 8 in a wave that is read or written.
    pub channels: u16,

    /// Frames a second.
    pub rate: u32,

    /// Bits a sample: 8, 16, 24 or 32 in a wave that is read or written.
    pub bits: u16,

    /// The frames in all.
    pub frames: u32,
}

impl Head {
    ghost use Rattle.std.specs.Prelude.{◌≡◌, ◌≤◌};
    ghost use Rattle.wdf_wav.specs.Header.{IsFrameFormat, block_align};

    // The bytes of a frame.
    pub(crate) fn block_align(&self) -> u16
        requires { IsFrameFormat self.now.channels self.now.bits }
        ensures value { result ≡ block_align self.now }
        ensures some { 1 ≤ result }
        ensures few { result ≤ 32 }
    {
        self.channels * (self.bits / 8)
    }
}
