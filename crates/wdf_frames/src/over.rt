/// The first sample over amp of a block: its frame within the block, its channel and its value.
#[derive(Clone, Copy)]
pub(crate) struct Over {
    pub(crate) frame: usize,
    pub(crate) channel: u16,
    pub(crate) sample: i64,
}
