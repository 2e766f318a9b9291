/// Where a word of a text stands: its bytes are `text[start..start + len]`.
#[derive(Clone, Copy, Debug, PartialEq, Eq)]
pub struct Word {
    /// The offset of its first byte in the text.
    pub start: usize,
    /// How many bytes it has, at least 1.
    pub len: usize,
    /// Its line, from 1.
    pub line: u32,
    /// The byte of the line that it begins at, from 1.
    pub column: u32,
}
