/// A row of stages, each of which but the first has the one before as its tree below; the first has
/// an element there.
#[derive(Clone, Copy, Debug, PartialEq, Eq)]
pub(crate) struct Chain {
    /// The first of its stages.
    pub(crate) first: u16,
    /// The stage behind its last one.
    pub(crate) end: u16,
    /// The later stage beside which it hangs; the last chain hangs below the root.
    pub(crate) to: u16,
    /// The sign with which the element at its bottom reflects its last down wave: 1 for a capacitor,
    /// -1 for an inductor, and 0 for all else.
    pub(crate) sign: i64,
}
