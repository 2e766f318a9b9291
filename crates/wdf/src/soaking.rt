//! The command `soak`.

ghost use Rattle.std.specs.Prelude.{◌≡◌, List, ℕ, OnOk, IfErr, IsErrOf};
ghost use Rattle.std.specs.declared.option.Option.{Option};
ghost use Rattle.wdf_io.specs.Causes.{Rose};
ghost use Rattle.wdf_io.specs.Files.{Files};
ghost use Rattle.wdf_words.specs.Orders.{HasRanges};
ghost use Rattle.wdf.specs.SoakAnswer.{DoneSoak, SoakStops};
ghost use Rattle.wdf.specs.World.{world};

use crate::SoakingStop;
use std::alloc::Global;
use wdf_io::{Sink, put_all};
use wdf_soak::soak;
use wdf_words::{Command, Order};

/// Writes the summary of a run on the ladder and the wave that are made for the seed, the order and the
/// frames that the words say.
///
/// # Errors
///
/// Those of [`soak`], and `Write`, in this order; `Write` only where the output's count of faults rose.
pub fn soak_order<O: Sink>(alloc: Global, order: &Order, out: &mut O) -> Result<(), SoakingStop>
    requires ranges { HasRanges order.now }
    requires asked { order.now.command ≡ Command.Soak }
    // Whatever the words, the files, the input and the note are: nothing else is read or written.
    ensures done { (words : List (List ℕ)) (files : Option Files) (left noted : Option (List ℕ)) → OnOk result
        (DoneSoak (world words files left left (O.written out.old) (O.written out.new) noted noted) order.now) }
    ensures refused { (words : List (List ℕ)) (files : Option Files) (left noted : Option (List ℕ)) → IfErr result
        (SoakStops (world words files left left (O.written out.old) (O.written out.new) noted noted) order.now) }
    ensures write_fault { IsErrOf result SoakingStop.Write → Rose (O.faults out.old) (O.faults out.new) }
{
    let text = soak(alloc, order.seed, order.order, order.frames)?;
    put_all(out, &text)?;
    Ok(())
}
