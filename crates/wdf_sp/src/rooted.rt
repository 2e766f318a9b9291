use wdf_law::Shape;

/// The two trees that a root joins: both stand between the same two nodes.
#[derive(Drop)]
pub struct Rooted {
    /// The leaf of the element at the root.
    pub left: Shape,
    /// Everything else.
    pub right: Shape,
}
