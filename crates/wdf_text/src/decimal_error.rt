/// Why [`decimal`](crate::decimal) refuses a text; of two causes the first of this list.
#[derive(Clone, Copy, Debug, PartialEq, Eq)]
pub enum DecimalError {
    /// It has more than 40 bytes.
    TooLong,
    /// The byte at this offset, the first such, is neither a digit nor the first dot.
    BadByte { at: usize },
    /// It has no digit.
    Empty,
    /// More than 9 digits stand from the first to the last that is not 0.
    TooManyDigits,
}
