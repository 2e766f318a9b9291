/// How the two parts of a junction are connected.
#[derive(Clone, Copy, Debug, PartialEq, Eq)]
pub enum Connection {
    /// One current, and voltages that add.
    Series,
    /// One voltage, and currents that add.
    Parallel,
}
