use crate::format::Format;

/// How far a head was read: the chunks so far, the format that one of them told, and the offset of
/// what follows them.
#[derive(Clone, Copy, Debug)]
pub(crate) struct Seen {
    pub(crate) chunks: u32,
    pub(crate) format: Option<Format>,
    pub(crate) at: u64,
}
