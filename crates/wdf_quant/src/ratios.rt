ghost use Rattle.std.specs.Prelude.{◌≡◌, ◌+◌, ◌^◌, ◌<◌, ◌≤◌, List, IsSome, IfOk, Some};
ghost use Rattle.wdf_law.specs.Network.{unit_of};
ghost use Rattle.wdf_quant.specs.PortBound.{Encloses, HasLeafNumbers, leaf_in};
ghost use Rattle.wdf_quant.specs.RatioTrees.{tree_of, Gathers};

use crate::ratio_trees::RatioTrees;
use crate::{PortRatio, RatioFault};
use std::alloc::Global;
use std::marker::Model;
use wdf_law::{Net, laws};

/// The numbers of the ports of a network, in the order of a walk away from its first source.
#[derive(Drop)]
pub struct Ratios {
    list: Vec<PortRatio>,
}

impl Model for Ratios {
    ghost use Rattle.std.specs.Prelude.{List};
    ghost use Rattle.wdf_quant.specs.declared.port_ratio.PortRatio.{PortRatio};

    ghost Value = { List PortRatio };

    ghost view = { λ r. r.list.items };
}

impl Ratios {
    /// The ports with their numbers: first the port of the first source, then, at each junction that
    /// is reached, its parent, its first and its second part, each with all that lies beyond it
    /// before the next. There is one entry for each element and each junction; the root has none.
    pub fn list(&self) -> &[PortRatio]
        ensures { result.now ≡ self.now }
    {
        &self.list
    }

    /// The number of the port of the element `elem`, which the network has to have.
    pub fn of_leaf(&self, elem: u32) -> u64
        requires { IsSome (leaf_in self.now elem) }
        ensures { leaf_in self.now elem ≡ Some result }
    {
        for port in &self.list {
            if port.leaf && port.elem == elem {
                return port.ratio;
            }
        }
        unreachable!()
    }
}

/// The numbers that bound the words of a network's ports, in units of 2^-40.
///
/// Seen from a source each port has a ratio: 2^40 at the source's own port, and from port to port
/// as much more as the multipliers make the port's conductance smaller, rounded up. A port's number
/// is the sum of its ratios over all sources.
///
/// # Errors
///
/// [`RatioFault::Wide`] exactly where a single ratio or a port's number exceeds 2^62: it names the
/// first such ratio, seen from each source in turn and in the order of that source's walk, or else
/// the first such number in the walk of the first source.
pub fn enclose(alloc: Global, net: &Net) -> Result<Ratios, RatioFault>
    ensures answer { Encloses net.now result }
    ensures leaves { IfOk result (HasLeafNumbers net.now) }
{
    net.rules();
    laws::numbers(net);
    let trees = gathered(alloc, net)?;
    let Some(first) = net.source_at(0) else {
        unreachable!();
    };
    let list = trees.list(alloc, first)?;
    Ok(Ratios { list })
}

// The sums of the ratios over all sources.
fn gathered(alloc: Global, net: &Net) -> Result<RatioTrees, RatioFault>
    ensures left { IfOk result (λ trees. tree_of trees.left ≡ net.now.left) }
    ensures right { IfOk result (λ trees. tree_of trees.right ≡ net.now.right) }
    ensures answer { Gathers net.now result }
{
    laws::multipliers(net);
    let unit = unit_of(net);
    let m = net.root_m();
    let mut trees = RatioTrees::new(alloc, net)?;
    'sources: for i in 0..net.source_count() {
        let Some(source) = net.source_at(i) else {
            unreachable!();
        };
        trees.fill(unit, m, source)?;
        trees.gather(i as u32);
    }
    Ok(trees)
}

// The units of a whole multiplier.
#[tactic(auto, using(crate::proofs::Powers::unit_fits))]
fn unit_of(net: &Net) -> u32
    ensures { result ≡ unit_of net.now }
{
    1 << net.k()
}
