/// The slots of a stage's values.
#[derive(Clone, Copy, Debug, PartialEq, Eq)]
pub(crate) struct Mark {
    /// What the part beside reflects.
    pub(crate) up: u16,
    /// What the part beside is sent.
    pub(crate) down: u16,
    /// What the tree below reflects.
    pub(crate) below: u16,
    /// What the tree below is sent.
    pub(crate) onward: u16,
    /// What a parallel junction reflects before it is truncated; at a series junction it is `out`,
    /// and at the root it means nothing.
    pub(crate) raw: u16,
    /// What the junction reflects; at the root it means nothing.
    pub(crate) out: u16,
    /// What the junction is sent; at the root it means nothing.
    pub(crate) sent: u16,
}
