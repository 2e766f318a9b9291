ghost use Rattle.std.specs.Prelude.{◌≡◌, ◌≤◌, ◌<◌, ℕ, length, All, IfOk};
ghost use Rattle.wdf_law.specs.Outline.{outline, outline_elements};
ghost use Rattle.wdf_law.specs.Trees.{LeafElement};
ghost use Rattle.wdf_lattice.specs.Runners.{DriveAll};
ghost use Rattle.wdf_lattice.specs.Sides.{run_count};
ghost use Rattle.wdf_netlist.specs.declared.TheConstants.{MAX_RATE};
ghost use Rattle.wdf_sp.specs.Edges.{halves};
ghost use Rattle.wdf_design.specs.Designs.{Designs, ports_of};
ghost use Rattle.wdf_design.specs.Realising.{NamesElement, RealisesEach};
ghost use Rattle.wdf_design.specs.Stages.{GivesNetwork, GivesPortsAt, GivesTrees, HasTrees};

use crate::DesignFault;
use std::alloc::Global;
use wdf_lattice::Networks;
use wdf_law::{Net, PortTree, Shape, Side};
use wdf_netlist::laws::kinds_counted;
use wdf_netlist::{Circuit, Form, Netlist};
use wdf_ports::{PortFault, port_tree};
use wdf_quant::quantise;
use wdf_sp::{Rooted, SpFault, choose, decompose, reroot};

// The two trees at the root of a circuit's shape.
fn trees(alloc: Global, side: Side, circuit: &Circuit) -> Result<Rooted, DesignFault>
    ensures { GivesTrees side circuit.now result }
{
    circuit.rules();
    match decompose(alloc, circuit) {
        Ok(shape) => {
            let root = choose(circuit, &shape);
            Ok(reroot(shape, circuit.source(), root))
        }
        Err(SpFault::Core { element, core }) => Err(DesignFault::Core {
            side,
            element,
            core,
        }),
        Err(SpFault::NoMemory) => Err(DesignFault::NoMemory),
    }
}

// The ports of one of them.
fn ports(
    alloc: Global,
    rate: u32,
    side: Side,
    circuit: &Circuit,
    tree: &Shape,
) -> Result<PortTree, DesignFault>
    requires slowest { 1 ≤ rate }
    requires fastest { rate ≤ MAX_RATE }
    requires elements { All (λ (x : LeafElement). x.number < length circuit.now.elements) (outline_elements (outline tree.now)) }
    ensures { GivesPortsAt side (length circuit.now.elements) (ports_of rate circuit.now (outline tree.now)) result }
{
    match port_tree(alloc, rate, circuit, tree) {
        Ok(ports) => Ok(ports),
        Err(PortFault::Range { element, low }) => Err(DesignFault::Range { side, element, low }),
        Err(PortFault::NoMemory) => Err(DesignFault::NoMemory),
    }
}

// The network of the two trees at the root of a circuit.
fn network(
    alloc: Global,
    rate: u32,
    k: u8,
    side: Side,
    circuit: &Circuit,
    trees: &Rooted,
) -> Result<Net, DesignFault>
    requires slowest { 1 ≤ rate }
    requires fastest { rate ≤ MAX_RATE }
    requires some { 1 ≤ k }
    requires few { k ≤ 20 }
    requires trees { HasTrees side circuit.now (halves trees.now) }
    ensures { GivesNetwork rate k side circuit.now (halves trees.now) result }
{
    circuit.rules();
    kinds_counted(circuit);
    let left = ports(alloc, rate, side, circuit, &trees.left)?;
    let right = ports(alloc, rate, side, circuit, &trees.right)?;
    Ok(quantise(alloc, &left, &right, k, circuit.outlet())?)
}

/// The quantised networks of a netlist, with multipliers in units of `2^-k`: the network of a
/// ladder's circuit, or those of a lattice's branches. `k` is in 1..=20.
///
/// A circuit's shape is rooted where the circuit chooses, and the ratios of the ports at the
/// netlist's rate give the multipliers.
///
/// # Errors
///
/// `Core` exactly where a circuit has no shape, and else `Range` exactly where a ratio is out of
/// range: of several the first, branch A before branch B, and in a circuit the left tree before the
/// right one, parts before their junction and the first part first. `NoMemory` where no memory is
/// left.
pub fn design(alloc: Global, netlist: &Netlist, k: u8) -> Result<Networks, DesignFault>
    requires some { 1 ≤ k }
    requires few { k ≤ 20 }
    ensures answer { Designs netlist.now k result }

    // Each network is of its circuit: the same elements between the same nodes.
    ensures networks { IfOk result (RealisesEach k netlist.now.form) }
    // Channels that drive the sources one by one drive all of them.
    ensures driven { IfOk result (λ ns. (channels : ℕ) → DriveAll ns (run_count ns channels)) }
    // A refusal names an element of its side's circuit.
    ensures named { NamesElement netlist.now.form result }
{
    netlist.rules();
    let rate = netlist.rate();
    match netlist.form() {
        Form::Ladder(circuit) => {
            let whole = trees(alloc, Side::Whole, circuit)?;
            let net = network(alloc, rate, k, Side::Whole, circuit, &whole)?;
            Ok(Networks::Ladder(net))
        }
        Form::Lattice { a, b } => {
            let first = trees(alloc, Side::A, a)?;
            let second = trees(alloc, Side::B, b)?;
            let first = network(alloc, rate, k, Side::A, a, &first)?;
            let second = network(alloc, rate, k, Side::B, b, &second)?;
            Ok(Networks::Lattice {
                a: first,
                b: second,
            })
        }
    }
}
