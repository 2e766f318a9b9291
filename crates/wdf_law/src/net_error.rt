/// Why [`Net::new`](crate::Net::new) refuses a network. `elem` is an element's number.
#[derive(Clone, Copy, Debug, PartialEq, Eq)]
pub enum NetError {
    /// The width `k` is not in 1..=20.
    BadWidth { k: u8 },
    /// A tree is deeper than 128.
    TooDeep,
    /// A multiplier is not in `1..=2^k - 1`; `elem` is the first leaf of its junction, for the root
    /// the first leaf of the left tree.
    BadMultiplier { elem: u32 },
    /// A leaf's number is 128 or more.
    BadElement { elem: u32 },
    /// An earlier leaf has this leaf's number.
    DoubleElement { elem: u32 },
    /// No leaf has this number, though it is below the count of leaves.
    MissingElement { elem: u32 },
    /// No leaf is a source.
    NoSource,
    /// This is the source with the number [`MAX_SOURCES`](crate::MAX_SOURCES): there are more.
    TooManySources { elem: u32 },
    /// The outlet's load is not the number of a resistor.
    NoOutlet,
}
