/// Where a source stands.
#[derive(Clone, Copy, Debug, PartialEq, Eq)]
pub(crate) struct Feed {
    /// The stage at which it hangs.
    pub(crate) stage: u16,
    /// Whether it hangs beside that stage, or else below it.
    pub(crate) beside: bool,
    /// Whether its values are negated.
    pub(crate) flip: bool,
}
