ghost use Rattle.std.specs.Prelude.{◌≡◌};
ghost use Rattle.wdf_sp.specs.Edges.{arc};
ghost use Rattle.wdf_sp.specs.Reduction.{touches, turned, leaving, arriving, have_same_ends, is_between};

use wdf_law::Shape;

/// A network that stands from one node to another, as the reduction of a circuit sees it.
#[derive(Drop)]
pub struct Edge {
    /// Its elements, directed from `from` to `to`.
    pub shape: Shape,
    /// The number of the node where it begins.
    pub from: u32,
    /// The number of the node where it ends.
    pub to: u32,
}

impl Edge {
    // One of its ends is this node.
    pub(crate) fn touches(&self, node: u32) -> bool
        ensures { result ≡ touches node (arc self.now) }
    {
        self.from == node || self.to == node
    }

    // Both stand between the same two nodes.
    pub(crate) fn has_ends_of(&self, other: &Edge) -> bool
        ensures { result ≡ have_same_ends (arc self.now) (arc other.now) }
    {
        other.from == self.from && other.to == self.to
            || other.from == self.to && other.to == self.from
    }

    // Its ends are these two nodes.
    pub(crate) fn is_between(&self, p: u32, q: u32) -> bool
        ensures { result ≡ is_between p q (arc self.now) }
    {
        self.from == p && self.to == q || self.from == q && self.to == p
    }

    // The same network from its end to its beginning.
    fn turned(self) -> Edge
        ensures { arc result ≡ turned (arc self) }
    {
        Edge {
            shape: self.shape.reversed(),
            from: self.to,
            to: self.from,
        }
    }

    // Directed so that it begins at this end.
    pub(crate) fn leaving(self, node: u32) -> Edge
        ensures { arc result ≡ leaving node (arc self) }
    {
        if self.from == node {
            self
        } else {
            self.turned()
        }
    }

    // Directed so that it ends at this end.
    pub(crate) fn arriving(self, node: u32) -> Edge
        ensures { arc result ≡ arriving node (arc self) }
    {
        if self.to == node { self } else { self.turned() }
    }
}
