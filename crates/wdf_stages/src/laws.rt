//! What is told leaves each stage one answer: two answers that its contract allows, neither of them
//! a fault nor want of memory, are equal. Each function is a law, whose contract is proved.

ghost use Rattle.std.specs.Prelude.{ℕ};
ghost use Rattle.wdf_stages.specs.StageLaws.{HasOneFile, HasOneNetlist, HasOneDesign, HasOneBound, HasOneOpening};

/// Told files leave one answer to the load of a file.
#[tactic(auto, using(crate::proofs::AnswerLemmas::one_file))]
pub fn one_file()
    ensures { HasOneFile }
{}

/// Told files leave one answer to the load of a netlist.
#[tactic(auto, using(crate::proofs::AnswerLemmas::one_netlist))]
pub fn one_netlist()
    ensures { HasOneNetlist }
{}

/// A netlist and a width leave one answer to the design of networks.
#[tactic(auto, using(crate::proofs::AnswerLemmas::one_design))]
pub fn one_design()
    ensures { HasOneDesign }
{}

/// A netlist, its networks and a plan leave one answer to the bounds of words.
#[tactic(auto, using(crate::proofs::AnswerLemmas::one_bound))]
pub fn one_bound()
    ensures { HasOneBound }
{}

/// A told input leaves one answer to its opening.
pub fn one_opening()
    ensures { HasOneOpening }
{
    wdf_wav::laws::one_answer();
}
