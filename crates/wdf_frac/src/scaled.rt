/// A fraction in units of 2^-40, rounded to the nearest whole number, half up.
#[derive(Clone, Copy, Debug, PartialEq, Eq)]
pub enum Scaled {
    /// It rounds to 0: it is below half a unit.
    Low,
    /// It rounds to more than 2^62 units.
    High,
    /// It rounds to this number of units, in `1..=2^62`.
    At(u64),
}
