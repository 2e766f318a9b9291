ghost use Rattle.std.specs.Prelude.{◌≡◌};
ghost use Rattle.wdf_sp.specs.Edges.{arcs};

use crate::Edge;
use std::marker::Model;

/// A list of edges.
#[derive(Drop)]
pub struct Edges {
    list: Vec<Edge>,
}

impl Model for Edges {
    ghost use Rattle.std.specs.Prelude.{List};
    ghost use Rattle.wdf_sp.specs.Reduction.{Arc};
    ghost use Rattle.wdf_sp.specs.ArcsCode.{arcs_code};

    ghost Value = { List Arc };

    ghost coded = { arcs_code };

    ghost use Rattle.wdf_sp.specs.Edges.{arcs};

    ghost view = { λ e. arcs e.list.items };
}

impl Edges {
    /// The edges of the vector, in its order.
    pub fn new(list: Vec<Edge>) -> Edges
        ensures { result ≡ arcs list.items }
    {
        Edges { list }
    }

    /// The edges, in order.
    pub fn list(&self) -> &[Edge]
        ensures { arcs result.now ≡ self.now }
    {
        &self.list
    }
}
