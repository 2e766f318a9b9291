/// Why a fraction is refused.
#[derive(Clone, Copy, Debug, PartialEq, Eq)]
pub enum FracError {
    /// The numerator or the denominator is 0.
    ZeroPart,
    /// In lowest terms, the numerator or the denominator needs more than 128 bits.
    TooWide,
}
