//! What the table of answers implies: each function is a law, whose contract is proved and whose body
//! calls laws alone.

ghost use Rattle.wdf.specs.AnswerLaws.{HasOneAnswer, IsComplete};

use wdf_certificates::laws::{one_certifying, one_checking, one_loading};
use wdf_stages::laws::{one_bound, one_design, one_netlist, one_opening};

/// What is told leaves the program one answer: two answers that the table allows for the same words,
/// told files and told input, neither of them a fault nor want of memory, are equal.
pub fn one_answer()
    ensures { HasOneAnswer }
{
    one_netlist();
    one_design();
    one_certifying();
    one_loading();
    one_checking();
    one_opening();
    wdf_wav::laws::one_answer();
    one_bound();
    wdf_frames::laws::one_end();
}

/// Where all is there that the words ask for, only a fault or want of memory is in the way.
pub fn completeness()
    ensures { IsComplete }
{
    one_netlist();
    one_design();
    one_certifying();
    one_loading();
    one_checking();
    one_opening();
    wdf_wav::laws::one_answer();
    one_bound();
    wdf_frames::laws::one_end();
}
