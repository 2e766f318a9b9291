ghost use Rattle.std.specs.Prelude.{◌≡◌, ◌≤◌};
ghost use Rattle.std.specs.Option.{option_copied};
ghost use Rattle.wdf_lattice.specs.Sides.{network_at, sources_driven};

use wdf_law::{Net, Side};

/// The quantised networks of a netlist.
#[derive(Drop)]
pub enum Networks {
    /// The network of a ladder.
    Ladder(Net),
    /// The networks of a lattice's two branches.
    Lattice { a: Net, b: Net },
}

impl Networks {
    /// The network of a side; None exactly where the form has no such side.
    pub fn side(&self, side: Side) -> Option<&Net>
        ensures { option_copied result ≡ network_at self.now side }
    {
        match (self, side) {
            (Networks::Ladder(net), Side::Whole) => Some(net),
            (Networks::Lattice { a, .. }, Side::A) => Some(a),
            (Networks::Lattice { b, .. }, Side::B) => Some(b),
            _ => None,
        }
    }

    /// How many samples a run takes in each frame, 1 to 8: one for each source of its network.
    pub fn sources_driven(&self) -> usize
        ensures count { result ≡ sources_driven self.now }
        ensures some { 1 ≤ result }
        ensures few { result ≤ 8 }
    {
        match self {
            Networks::Ladder(net) => net.source_count(),
            Networks::Lattice { .. } => 1,
        }
    }
}
