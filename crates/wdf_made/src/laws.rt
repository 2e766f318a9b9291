//! What the definitions of `specs/` imply: each function is a law, whose contract is proved.

ghost use Rattle.std.specs.Prelude.{◌≡◌, ◌≤◌, length};
ghost use Rattle.wdf_text.specs.declared.cursor.TheConstants.{MAX_TEXT};
ghost use Rattle.wdf_netlist.specs.Netlists.{NetlistValue};
ghost use Rattle.wdf_netlist.specs.NetlistText.{Stands};
ghost use Rattle.wdf_made.specs.Ladder.{circuit_with, made_netlist, made_value};
ghost use Rattle.wdf_made.specs.LadderLaws.{HasOneSource, HasShape};
ghost use Rattle.wdf_made.specs.LadderText.{made_text};
ghost use Rattle.wdf_made.specs.declared.TheConstants.{MAX_ORDER};

/// The ladder of an order in 1..=32 is series-parallel, whatever its seed: its reduction ends at one
/// edge.
#[tactic(auto, using(crate::proofs::LadderLemmas::has_shape))]
pub fn one_edge(seed: u64, order: u8)
    requires some { 1 ≤ order }
    requires few { order ≤ MAX_ORDER }
    ensures { HasShape (circuit_with (made_value seed) order) }
{
    let _ = (seed, order);
}

/// It has one source.
#[tactic(auto, using(crate::proofs::LadderLemmas::has_one_source))]
pub fn one_source(seed: u64, order: u8)
    requires some { 1 ≤ order }
    requires few { order ≤ MAX_ORDER }
    ensures { HasOneSource (circuit_with (made_value seed) order) }
{
    let _ = (seed, order);
}

/// The text of the ladder of an order in 1..=32 stands for the netlist that is made and for no other,
/// whatever its seed, and is short enough to be read.
#[tactic(auto, using(crate::proofs::TextLemmas::stands, crate::proofs::TextLemmas::nothing_else, crate::proofs::TextLemmas::is_short))]
pub fn text_stands(seed: u64, order: u8)
    requires some { 1 ≤ order }
    requires few { order ≤ MAX_ORDER }
    ensures stands { Stands (made_text seed order) (made_netlist seed order) }
    ensures only { (other : NetlistValue) → Stands (made_text seed order) other → other ≡ made_netlist seed order }
    ensures short { length (made_text seed order) ≤ MAX_TEXT }
{
    let _ = (seed, order);
}
