//! From the words to the networks of the netlist that they name.

ghost use Rattle.std.specs.Prelude.{◌≡◌, ◌≤◌, ◌<◌, ℕ, IfOk, IfErr, IsErrOf, length};
ghost use Rattle.wdf_io.specs.Causes.{Rose};
ghost use Rattle.wdf_design.specs.Realising.{RealisesEach};
ghost use Rattle.wdf_stages.specs.declared.netlist_stop.NetlistStop.TheVariants as netlists;
ghost use Rattle.wdf_stages.specs.Opening.{source_count_of};
ghost use Rattle.wdf_lattice.specs.Runners.{DriveAll};
ghost use Rattle.wdf_lattice.specs.Sides.{run_count, sources_driven};
ghost use Rattle.wdf_words.specs.Orders.{HasRanges, IsFileNamed, texts};
ghost use Rattle.wdf.specs.NetworksAnswer.{HasNetworks, NetworksRefuse, word_of};

use crate::{Designed, NetworksStop};
use std::alloc::Global;
use wdf_io::Shelf;
use wdf_stages::{design_networks, load_netlist};
use wdf_words::{Order, file_name};

/// The word that names a file.
pub fn file_word(words: &[String], place: Option<usize>) -> usize
    requires { IsFileNamed (texts words.now) place }
    ensures word { result ≡ word_of place }
    ensures within { result < length words.now }
{
    place.unwrap()
}

/// The netlist that the words name, and its networks.
///
/// # Errors
///
/// `Netlist` where the words' file is none, and `Design` where the netlist has no networks, as
/// [`load_netlist`] and [`design_networks`] say.
pub fn design_words<H: Shelf>(
    alloc: Global,
    words: &[String],
    order: &Order,
    shelf: &mut H,
) -> Result<Designed, NetworksStop>
    requires ranges { HasRanges order.now }
    requires named { IsFileNamed (texts words.now) order.now.net }
    ensures designed { IfOk result (HasNetworks (H.files shelf.old) (texts words.now) order.now) }
    // What the later stages want of the networks.
    ensures realised { IfOk result (λ d. RealisesEach order.now.k d.netlist.form d.networks) }
    ensures sources { IfOk result (λ d. sources_driven d.networks ≡ source_count_of d.netlist.form) }
    ensures driven { IfOk result (λ d. (channels : ℕ) → DriveAll d.networks (run_count d.networks channels)) }
    ensures refused { IfErr result (NetworksRefuse (H.files shelf.old) (texts words.now) order.now) }
    ensures same { H.files shelf.new ≡ H.files shelf.old }
    ensures later { H.faults shelf.old ≤ H.faults shelf.new }
    ensures load_fault { IsErrOf result (NetworksStop.Netlist netlists.LoadFault) → Rose (H.faults shelf.old) (H.faults shelf.new) }
{
    let word = file_word(words, order.net);
    let netlist = load_netlist(alloc, shelf, word, file_name(words, word))?;
    let networks = design_networks(alloc, &netlist, order.k)?;
    Ok(Designed { netlist, networks })
}
