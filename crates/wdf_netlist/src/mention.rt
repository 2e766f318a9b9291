use wdf_text::Name;

/// A name of an element in a `load` or `root` line, and where it stands.
#[derive(Clone, Copy, Debug)]
pub struct Mention {
    pub name: Name,
    pub line: u32,
    pub column: u32,
}
