/// Why no file was loaded.
#[derive(Clone, Copy, Debug, PartialEq, Eq)]
pub enum FileStop {
    /// The shelf has no file of the name in this word.
    Missing { word: usize },
    /// The file of the name in this word holds more than [`MAX_FILE`](crate::MAX_FILE) bytes.
    FileTooLarge { word: usize },
    /// The shelf failed: its count of faults rose in the call. It stands before the others.
    LoadFault,
    /// There was no memory for the bytes.
    NoMemory,
}
