//! Netlists of the shelf's files.

ghost use Rattle.std.specs.Prelude.{◌≡◌, ◌≤◌, IfOk, IfErr, IsErrOf};
ghost use Rattle.wdf_io.specs.Causes.{Rose};
ghost use Rattle.wdf_stages.specs.NetlistLoading.{Loads, NetlistRefuses};

use crate::{NetlistStop, load_file};
use std::alloc::Global;
use wdf_io::Shelf;
use wdf_netlist::{Netlist, read};

/// The netlist of the file of this name, which stands in this word.
///
/// # Errors
///
/// Those of [`load_file`], and `NetText` exactly where the file stands for no netlist, with its first
/// fault.
pub fn load_netlist<H: Shelf>(
    alloc: Global,
    shelf: &mut H,
    word: usize,
    name: &str,
) -> Result<Netlist, NetlistStop>
    ensures loads { IfOk result (Loads (H.files shelf.old) name.now) }
    ensures refused { IfErr result (NetlistRefuses (H.files shelf.old) word name.now) }
    ensures same { H.files shelf.new ≡ H.files shelf.old }
    ensures later { H.faults shelf.old ≤ H.faults shelf.new }
    ensures load_fault { IsErrOf result NetlistStop.LoadFault → Rose (H.faults shelf.old) (H.faults shelf.new) }
{
    let text = load_file(alloc, shelf, word, name)?;
    let netlist = read(alloc, &text)?;
    Ok(netlist)
}
