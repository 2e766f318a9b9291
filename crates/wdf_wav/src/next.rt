use crate::Head;
use crate::seen::Seen;

/// What was read next.
#[derive(Clone, Copy, Debug)]
pub(crate) enum Next {
    /// A chunk that is not `data`.
    Chunk(Seen),
    /// The id and the size of `data`, which complete the head.
    Data(Head),
}
