//! The ladder that is made for a seed and an order.

ghost use Rattle.std.specs.Prelude.{◌≡◌, ◌≤◌, IfOk};
ghost use Rattle.wdf_made.specs.Ladder.{made_netlist};
ghost use Rattle.wdf_made.specs.declared.TheConstants.{MAX_ORDER};

use crate::elements::{ladder_nodes, made_elements};
use std::alloc::{AllocError, Global};
use wdf_law::Outlet;
use wdf_netlist::{Circuit, Form, Netlist, RootChoice};

/// The netlist of the ladder of a seed and an order in 1..=32: a source and a load of 600 ohms, and
/// between them for each number up to the order a capacitor, where it is odd, or an inductor, of 1 to
/// 999 nanofarads or 1 to 99 millihenries.
///
/// # Errors
///
/// Where no memory is left.
#[tactic(auto, using(crate::proofs::LadderLemmas::is_circuit, crate::proofs::LadderLemmas::is_ladder, crate::proofs::ValueLemmas::made_values))]
pub fn made_netlist(alloc: Global, seed: u64, order: u8) -> Result<Netlist, AllocError>
    requires some { 1 ≤ order }
    requires few { order ≤ MAX_ORDER }
    ensures { IfOk result (λ n. n ≡ made_netlist seed order) }
{
    let elements = made_elements(alloc, seed, order)?;
    let nodes = ladder_nodes(alloc, order)?;
    let load = Outlet::Load(u32::from(order) + 1);
    let circuit = Circuit::new(elements, nodes, load, RootChoice::Source);
    Ok(Netlist::new(48_000, Form::Ladder(circuit)))
}
