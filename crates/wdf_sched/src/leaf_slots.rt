/// The slots of an element's port.
#[derive(Clone, Copy, Debug, PartialEq, Eq)]
pub struct LeafSlots {
    /// The wave that the element reflects. No operation writes it: it is there before the first.
    pub up: u16,
    /// The wave that the element is sent.
    pub down: u16,
}
