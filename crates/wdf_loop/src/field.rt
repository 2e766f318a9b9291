/// Which number of a cell.
#[derive(Clone, Copy, Debug, PartialEq, Eq)]
pub(crate) enum Field {
    /// What the part beside reflects.
    Up,
    /// What the part beside is sent.
    Down,
    /// What the tree below reflects.
    Below,
    /// What the tree below is sent.
    Onward,
    /// What a parallel junction reflects before it is truncated.
    Raw,
}
