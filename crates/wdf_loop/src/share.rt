/// The fixed numbers of a stage: the multipliers of its two parts, the one beside and the tree
/// below, which sum to a whole unit; whether it is a parallel junction; and the sign with which the
/// part beside reflects its last down wave: 1 for a capacitor, -1 for an inductor, and 0 for all
/// else.
#[derive(Clone, Copy, Debug, PartialEq, Eq)]
pub(crate) struct Share {
    pub(crate) m: u32,
    pub(crate) n: u32,
    pub(crate) parallel: bool,
    pub(crate) sign: i64,
}
