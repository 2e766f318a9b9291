// A port whose ratio exceeds 2^62: its element, and that ratio in units of 2^-40.
#[derive(Clone, Copy)]
pub(crate) struct WidePort {
    pub(crate) element: u32,
    pub(crate) need: u128,
}
