ghost use Rattle.std.specs.Prelude.{◌≡◌};
ghost use Rattle.wdf_law.specs.Network.{elements};
ghost use Rattle.wdf_energy.specs.PortLists.{has_of};

use wdf_law::Net;

// The two groups of elements that a ledger tells apart.
#[derive(Clone, Copy)]
pub(crate) enum Group {
    // Resistors and sources, which take up energy.
    Absorbing,
    // Capacitors and inductors, which store it.
    Reactive,
}

impl Group {
    // Whether the network has an element of the group with this number.
    pub(crate) fn has(self, net: &Net, number: u32) -> bool
        ensures { result ≡ has_of self (elements net.now) number }
    {
        match self {
            Group::Absorbing => net.has_absorbing(number),
            Group::Reactive => net.has_reactance(number),
        }
    }
}
