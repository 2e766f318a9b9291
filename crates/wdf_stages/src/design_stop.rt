use wdf_law::Side;
use wdf_sp::Edges;
use wdf_text::Name;

/// Why a netlist has no networks.
#[derive(Drop)]
pub enum DesignStop {
    /// The circuit of this side is not series-parallel: its reduction ends in this core, named by an
    /// element.
    NotSeriesParallel {
        side: Side,
        element: Name,
        core: Edges,
    },
    /// The ratio of a port of this side's circuit is not in `1..=2^62` units of 2^-40: below where
    /// `low` is set, else above. `element` is the port's own, or the first behind it.
    PortRange {
        side: Side,
        element: Name,
        low: bool,
    },
    /// There was no memory.
    NoMemory,
}
