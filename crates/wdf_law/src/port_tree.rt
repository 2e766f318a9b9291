ghost use Rattle.std.specs.Prelude.{◌≡◌};
ghost use Rattle.wdf_law.specs.Outline.{outline_first};
ghost use Rattle.wdf_law.specs.PortOutline.{port_outline, ratio_of, shape_outline};

use crate::Kind;

/// A tree of wave ports with their resistances. A port's `ratio` is its resistance over that of the
/// source, in units of 2^-40.
#[derive(Drop)]
pub enum PortTree {
    /// The element with the number `elem`. `flip` is set where the element is written against the
    /// direction of its place in the tree.
    Leaf {
        elem: u32,
        kind: Kind,
        flip: bool,
        ratio: u64,
    },
    /// Two parts in series, with the ratio of their common port.
    Series {
        ratio: u64,
        l: Box<PortTree>,
        r: Box<PortTree>,
    },
    /// Two parts in parallel, with the ratio of their common port.
    Parallel {
        ratio: u64,
        l: Box<PortTree>,
        r: Box<PortTree>,
    },
}

impl PortTree {
    /// The ratio of the tree's own port.
    pub fn ratio(&self) -> u64
        ensures { result ≡ ratio_of (port_outline self.now) }
    {
        match self {
            PortTree::Leaf { ratio, .. }
            | PortTree::Series { ratio, .. }
            | PortTree::Parallel { ratio, .. } => *ratio,
        }
    }

    /// The number of the first leaf, the first part before the second.
    pub fn first_leaf(&self) -> u32
        ensures { result ≡ outline_first (shape_outline (port_outline self.now)) }
    {
        match self {
            PortTree::Leaf { elem, .. } => *elem,
            PortTree::Series { l, .. } | PortTree::Parallel { l, .. } => l.first_leaf(),
        }
    }
}
