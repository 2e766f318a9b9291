//! The head of a report.

ghost use Rattle.std.specs.Prelude.{◌≡◌, ◌++◌, ◌∷◌, [], OnOk, codes};
ghost use Rattle.wdf_reporting.specs.ReportText.{form_word, head_lines, lines_text, plan_line};

use crate::pieces::{push_number, push_number_line};
use std::alloc::AllocError;
use wdf_bounds::Plan;
use wdf_netlist::{Form, Netlist};
use wdf_text::push_line;

// The line of the form.
fn push_form(out: &mut Vec<u8>, form: &Form) -> Result<(), AllocError>
    ensures { OnOk result (out.new.items ≡ out.old.items ++ (codes "form " ++ form_word form.now) ++ 10 ∷ []) }
{
    match form {
        Form::Ladder(_) => {
            push_line(out, b"form ladder")?;
            Ok(())
        }
        Form::Lattice { .. } => {
            push_line(out, b"form lattice")?;
            Ok(())
        }
    }
}

// The line of the plan.
fn push_plan(out: &mut Vec<u8>, plan: &Plan) -> Result<(), AllocError>
    ensures { OnOk result (out.new.items ≡ out.old.items ++ plan_line plan.now ++ 10 ∷ []) }
{
    push_number(out, b"plan k ", u64::from(plan.k()))?;
    push_number(out, b" guard ", u64::from(plan.guard()))?;
    push_number(out, b" shift ", u64::from(plan.shift()))?;
    push_number(out, b" frames ", u64::from(plan.frames()))?;
    push_number(out, b" amp ", u64::from(plan.amp()))?;
    push_number(out, b" bits ", u64::from(plan.bits()))?;
    out.push(b'\n')?;
    Ok(())
}

/// Appends the first four lines of the report: what it is, the netlist's form and rate, and the plan.
///
/// # Errors
///
/// Where no memory is left.
pub fn report_head(out: &mut Vec<u8>, netlist: &Netlist, plan: &Plan) -> Result<(), AllocError>
    ensures { OnOk result (out.new.items ≡ out.old.items ++ lines_text (head_lines netlist.now plan.now)) }
{
    push_line(out, b"wdf report 1")?;
    push_form(out, netlist.form())?;
    push_number_line(out, b"rate ", u64::from(netlist.rate()))?;
    push_plan(out, plan)?;
    Ok(())
}
