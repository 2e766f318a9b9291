/// A part of a stage.
#[derive(Clone, Copy, Debug, PartialEq, Eq)]
pub(crate) struct Part {
    /// The stage.
    pub(crate) stage: u16,
    /// Whether it hangs beside that stage, or else below it.
    pub(crate) beside: bool,
}
