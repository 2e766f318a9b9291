use wdf_lattice::Networks;
use wdf_netlist::Netlist;

/// A netlist and its networks.
#[derive(Drop)]
pub struct Designed {
    pub netlist: Netlist,
    pub networks: Networks,
}
