/// What the chunk `fmt ` of a wave tells.
#[derive(Clone, Copy, Debug, PartialEq, Eq)]
pub(crate) struct Format {
    /// The samples of a frame.
    pub(crate) channels: u16,

    /// Frames a second.
    pub(crate) rate: u32,

    /// Bits a sample.
    pub(crate) bits: u16,
}
