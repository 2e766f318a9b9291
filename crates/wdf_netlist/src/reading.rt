ghost use Rattle.std.specs.Prelude.{◌≡◌, ◌≤◌, Err, IfOk, length};
ghost use Rattle.wdf_netlist.specs.declared.net_fault.NetFault.{NetFault};
ghost use Rattle.wdf_netlist.specs.Gathering.{Answers};
ghost use Rattle.wdf_netlist.specs.NetlistText.{IsFault, Stands};

use crate::forms::netlist;
use crate::text_lines::read_lines;
use crate::{Netlist, ReadError};
use std::alloc::Global;
use wdf_text::MAX_TEXT;

// The meaning of a text.
fn meaning(alloc: Global, text: &[u8]) -> Result<Netlist, ReadError>
    requires { length text.now ≤ MAX_TEXT }
    ensures { Answers text.now result }
{
    let draft = read_lines(alloc, text)?;
    netlist(alloc, &draft)
}

/// The netlist that a text of at most [`MAX_TEXT`] bytes stands for, by the rules of
/// `docs/netlist.md`.
///
/// # Errors
///
/// The fault of the first faulty line, else the first of the whole text; or want of memory.
#[tactic(auto, using(crate::proofs::ReadingLemmas::stands_for, crate::proofs::ReadingLemmas::is_fault))]
pub fn read(alloc: Global, text: &[u8]) -> Result<Netlist, ReadError>
    requires { length text.now ≤ MAX_TEXT }
    ensures stands { IfOk result (Stands text.now) }
    ensures fault { (fault : NetFault) → result ≡ Err (ReadError.Fault fault) → IsFault text.now fault }
{
    meaning(alloc, text)
}
