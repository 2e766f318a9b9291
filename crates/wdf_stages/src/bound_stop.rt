use wdf_law::Side;
use wdf_text::Name;

/// Why a plan does not fit the networks.
#[derive(Clone, Copy, Debug, PartialEq, Eq)]
pub enum BoundStop {
    /// At the port of `element` in this side's network, or at the first port behind which it is,
    /// `need` exceeds `limit`: where `ratio` is set the number that bounds follow from, in units of
    /// 2^-40, whose limit is 2^62; else the bound of the words there, whose limit is `2^(60-k)`.
    Bound {
        side: Side,
        element: Name,
        ratio: bool,
        need: u128,
        limit: u64,
    },
    /// There was no memory for the bounds.
    NoMemory,
}
