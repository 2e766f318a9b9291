/// Where the energy of a run went, in units of the square of a wave: 2^(-2·guard) of the square of
/// a sample.
#[derive(Clone, Copy, Debug, PartialEq, Eq)]
pub struct Totals {
    /// What the sources sent in: the sum of e² over the sources and the frames.
    pub incident: u128,
    /// What the resistors and the sources took up: the sum over them of S·2^40/p, rounded down,
    /// where S is the sum of the squares of the element's down waves and p the number of its port.
    pub absorbed: u128,
    /// What is stored after the last frame: the sum over the capacitors and inductors of x²·2^40/p,
    /// rounded down, where x is the element's state.
    pub stored: u128,
}
