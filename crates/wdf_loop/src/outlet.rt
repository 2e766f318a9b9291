ghost use Rattle.std.specs.Prelude.{◌≡◌, length};
ghost use Rattle.std.specs.Prelude.{filter};
ghost use Rattle.std.specs.List.{range_with_len};
ghost use Rattle.wdf_law.specs.Network.{elements, has_absorbing};
ghost use Rattle.wdf_loop.specs.Parts.{IsOutlet};

use crate::leaf::flip_at;
use wdf_law::Net;

/// Which wave is the load wave.
#[derive(Clone, Copy, Debug, PartialEq, Eq)]
pub(crate) struct Outlet {
    /// The place of its element among those that absorb.
    pub(crate) place: usize,
    /// Whether it is that wave negated.
    pub(crate) flip: bool,
}

// How many elements with a lower number absorb.
fn absorbing_before(net: &Net, number: u32) -> usize
    ensures { result ≡ length (filter (has_absorbing (elements net.now)) (range_with_len 0 number)) }
{
    let mut count = 0;
    for i in 0..number {
        if net.has_absorbing(i) {
            count += 1;
        }
    }
    count
}

/// The outlet of a network.
pub(crate) fn outlet_of(net: &Net) -> Outlet
    ensures { IsOutlet net.now result }
{
    net.rules();
    wdf_law::laws::numbers(net);
    let number = net.outlet_element();
    Outlet {
        place: absorbing_before(net, number),
        flip: flip_at(net, number),
    }
}
