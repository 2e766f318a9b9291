//! Why there are no networks.

ghost use Rattle.std.specs.Prelude.{◌≡◌};
ghost use Rattle.wdf.specs.declared.networks_stop.NetworksStop.TheVariants.{Design, Netlist};

use wdf_stages::{DesignStop, NetlistStop};

/// Why there are no networks.
#[derive(Drop)]
pub enum NetworksStop {
    /// There is no netlist.
    Netlist(NetlistStop),
    /// The netlist has none.
    Design(DesignStop),
}

impl From<NetlistStop> for NetworksStop {
    ghost from_gives = { λ stop s. s ≡ Netlist stop };

    fn from(stop: NetlistStop) -> Self {
        NetworksStop::Netlist(stop)
    }
}

impl From<DesignStop> for NetworksStop {
    ghost from_gives = { λ stop s. s ≡ Design stop };

    fn from(stop: DesignStop) -> Self {
        NetworksStop::Design(stop)
    }
}
