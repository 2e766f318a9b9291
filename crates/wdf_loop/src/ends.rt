/// The slots of a tree's waves.
#[derive(Clone, Copy, Debug, PartialEq, Eq)]
pub(crate) struct Ends {
    /// What the tree reflects.
    pub(crate) up: u16,
    /// What the tree is sent.
    pub(crate) down: u16,
}
