use wdf_bounds::Bounds;
use wdf_quant::Ratios;

/// The bounds of a network's words under a plan, and the numbers that they follow from.
#[derive(Drop)]
pub struct NetworkBounds {
    /// The numbers of the ports, in the order of a walk away from the first source.
    pub ratios: Ratios,
    /// The bounds of their words, in the same order.
    pub words: Bounds,
}
