/// The element whose down wave is the output of a network.
#[derive(Clone, Copy, Debug, PartialEq, Eq)]
pub enum Outlet {
    /// The resistor with this number.
    Load(u32),
    /// Source 0, the first source by its element's number.
    Source,
}
