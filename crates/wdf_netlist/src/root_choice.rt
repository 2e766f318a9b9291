/// Where the root of a circuit's adaptors is to stand.
#[derive(Clone, Copy, Debug, PartialEq, Eq)]
pub enum RootChoice {
    /// At the first source, since the netlist does not say.
    Source,
    /// At the element with this number.
    Element(u32),
    /// Where the adaptors are least deep.
    Shallow,
}
