// Where a cursor stands: `at` bytes behind the front of the text, in this line and at this column of it.
#[derive(Clone, Copy)]
pub(crate) struct Place {
    pub(crate) at: usize,
    pub(crate) line: u32,
    pub(crate) column: u32,
}
