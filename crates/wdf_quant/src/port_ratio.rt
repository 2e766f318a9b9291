/// The number that bounds the words of a wave port, in units of 2^-40.
#[derive(Clone, Copy, Debug, PartialEq, Eq)]
pub struct PortRatio {
    /// The element whose port it is; for the port of a junction the first leaf below it.
    pub elem: u32,
    /// Whether it is the port of an element.
    pub leaf: bool,
    /// The number: the sum of the port's ratios over the sources, at most 2^62.
    pub ratio: u64,
}
