//! The networks that run.

ghost use Rattle.std.specs.Prelude.{◌≡◌, IfOk, OnOk};
ghost use Rattle.wdf_bounds.specs.Plans.{plan_of};
ghost use Rattle.wdf_bounds.specs.WordBound.{Fits};
ghost use Rattle.wdf_lattice.specs.Runners.{DriveAll, FitsEach};

use std::alloc::{AllocError, Global};
use std::process::Abort;
use std::test::Fail;
use wdf_bounds::{Plan, plan_check};
use wdf_design::design;
use wdf_lattice::Networks;
use wdf_law::{Kind, Net, Outlet, Tree};
use wdf_made::made_netlist;
use wdf_netlist::{Netlist, read};
use wdf_quant::enclose;

/// What runs.
#[derive(Clone, Copy)]
pub(super) enum Subject {
    /// The ladder that a soak of order 8 makes from the seed 3.
    Soaked,
    /// The networks of a netlist.
    Text(&'static [u8]),
    /// A source against a capacitor and the load in parallel.
    OneJunction,
    /// A source and an inductor in series against them.
    BothSides,
}

/// The plan of 1,000 frames of 16 bits that no operand changes.
pub(super) fn plan() -> Plan
    ensures { result ≡ plan_of 14 4 0 1000 32768 16 }
{
    Plan::new(14, 4, 0, 1_000, 32_768, 16).unwrap()
}

fn netlist_of(rt: &impl Abort, alloc: Global, text: &[u8]) -> Result<Netlist, Fail> {
    assert!(rt; text.len() <= 1_000);
    match read(alloc, text) {
        Ok(netlist) => Ok(netlist),
        Err(_) => panic!(rt; "no netlist"),
    }
}

#[tactic(auto, using(crate::proofs::DriveLemmas::drives_one))]
fn designed(rt: &impl Abort, alloc: Global, netlist: &Netlist) -> Result<Networks, Fail>
    ensures { IfOk result (λ ns. DriveAll ns 1) }
{
    match design(alloc, netlist, 14) {
        Ok(networks) => Ok(networks),
        Err(_) => panic!(rt; "no networks"),
    }
}

fn leaf(elem: u32, kind: Kind) -> Tree {
    Tree::Leaf {
        elem,
        kind,
        flip: false,
    }
}

// A capacitor and the load in parallel.
fn loaded(alloc: Global) -> Result<Tree, AllocError> {
    let m = 8_192;
    let l = Box::new(alloc, leaf(1, Kind::Cap))?;
    let r = Box::new(alloc, leaf(2, Kind::Res))?;
    Ok(Tree::Parallel { m, l, r })
}

fn one_junction(alloc: Global) -> Result<Net, Fail> {
    let source = leaf(0, Kind::Src);
    Ok(Net::new(14, 5_461, source, loaded(alloc)?, Outlet::Load(2))?)
}

fn both_sides(alloc: Global) -> Result<Net, Fail> {
    let m = 10_923;
    let l = Box::new(alloc, leaf(0, Kind::Src))?;
    let r = Box::new(alloc, leaf(3, Kind::Ind))?;
    let left = Tree::Series { m, l, r };
    Ok(Net::new(14, 5_461, left, loaded(alloc)?, Outlet::Load(2))?)
}

fn networks_of(rt: &impl Abort, alloc: Global, subject: Subject) -> Result<Networks, Fail>
    ensures { IfOk result (λ ns. DriveAll ns 1) }
{
    match subject {
        Subject::Soaked => designed(rt, alloc, &made_netlist(alloc, 3, 8)?),
        Subject::Text(text) => designed(rt, alloc, &netlist_of(rt, alloc, text)?),
        Subject::OneJunction => Ok(Networks::Ladder(one_junction(alloc)?)),
        Subject::BothSides => Ok(Networks::Ladder(both_sides(alloc)?)),
    }
}

fn fits(rt: &impl Abort, alloc: Global, net: &Net) -> Result<(), Fail>
    ensures { OnOk result (Fits net.now (plan_of 14 4 0 1000 32768 16)) }
{
    assert!(rt; net.k() == 14);
    let ratios = enclose(alloc, net)?;
    plan_check(alloc, net, &ratios, &plan())?;
    Ok(())
}

fn fits_each(rt: &impl Abort, alloc: Global, networks: &Networks) -> Result<(), Fail>
    ensures { OnOk result (FitsEach networks.now (plan_of 14 4 0 1000 32768 16)) }
{
    match networks {
        Networks::Ladder(net) => fits(rt, alloc, net),
        Networks::Lattice { a, b } => {
            fits(rt, alloc, a)?;
            fits(rt, alloc, b)
        }
    }
}

/// The networks, which the plan fits.
pub(super) fn networks(rt: &impl Abort, alloc: Global, subject: Subject) -> Result<Networks, Fail>
    ensures fits { IfOk result (λ ns. FitsEach ns (plan_of 14 4 0 1000 32768 16)) }
    ensures driven { IfOk result (λ ns. DriveAll ns 1) }
{
    let networks = networks_of(rt, alloc, subject)?;
    fits_each(rt, alloc, &networks)?;
    Ok(networks)
}
