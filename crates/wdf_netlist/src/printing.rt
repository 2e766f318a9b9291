//! The canonical text of a netlist.

ghost use Rattle.std.specs.Prelude.{◌≡◌, ◌+◌, ◌<◌, ◌≤◌, ◌++◌, ◌∷◌, [], All, IfOk, OnOk, codes, decimal, length, replicate, true};
ghost use Rattle.wdf_netlist.specs.Canonical.{branch_lines, canonical, element_lines, element_word, element_words, form_lines, ladder_lines, line_text, lines_text, load_lines, root_lines, scaled_digits, value_text, with_dot, node_name};
ghost use Rattle.wdf_netlist.specs.Circuits.{HasOutlet, HasRoot};
ghost use Rattle.wdf_netlist.specs.declared.element.Element.{Element};
ghost use Rattle.wdf_netlist.specs.declared.form.Form.TheVariants.{Lattice};

use crate::{Circuit, Element, Form, Netlist, RootChoice};
use itoa::Buffer;
use std::alloc::{AllocError, Global};
use wdf_law::{Kind, Outlet};
use wdf_text::{Name, Quantity, push_line};

fn push_zeros(out: &mut Vec<u8>, count: usize) -> Result<(), AllocError>
    ensures { OnOk result (out.new.items ≡ out.old.items ++ replicate count 48) }
{
    for _ in 0..count {
        out.push(b'0')?;
    }
    Ok(())
}

// These digits with so many of them behind a dot, and at least one before it.
#[tactic(auto, using(crate::proofs::PrintLemmas::dot_within, crate::proofs::PrintLemmas::dot_before))]
fn push_with_dot(out: &mut Vec<u8>, digits: &[u8], places: usize) -> Result<(), AllocError>
    requires { places ≤ 128 }
    ensures { OnOk result (out.new.items ≡ out.old.items ++ with_dot digits.now places) }
{
    if places < digits.len() {
        let (whole, behind) = digits.split_at(digits.len() - places);
        out.extend_from_slice(whole)?;
        out.push(b'.')?;
        out.extend_from_slice(behind)?;
        return Ok(());
    }
    out.extend_from_slice(b"0.")?;
    push_zeros(out, places - digits.len())?;
    out.extend_from_slice(digits)?;
    Ok(())
}

// These digits times a power of ten.
fn push_scaled(out: &mut Vec<u8>, digits: &[u8], exp: i8) -> Result<(), AllocError>
    ensures { OnOk result (out.new.items ≡ out.old.items ++ scaled_digits digits.now exp) }
{
    if exp < 0 {
        push_with_dot(out, digits, usize::from(exp.unsigned_abs()))?;
        return Ok(());
    }
    out.extend_from_slice(digits)?;
    push_zeros(out, usize::from(exp.unsigned_abs()))?;
    Ok(())
}

// A value as a plain decimal.
fn push_value(out: &mut Vec<u8>, value: Quantity) -> Result<(), AllocError>
    ensures { OnOk result (out.new.items ≡ out.old.items ++ value_text value) }
{
    push_scaled(
        out,
        Buffer::new().format(value.digits).as_bytes(),
        value.exp,
    )?;
    Ok(())
}

// A space and then a word.
fn push_word(out: &mut Vec<u8>, word: &[u8]) -> Result<(), AllocError>
    ensures { OnOk result (out.new.items ≡ out.old.items ++ 32 ∷ word.now) }
{
    out.push(b' ')?;
    out.extend_from_slice(word)?;
    Ok(())
}

// A line of two words.
fn push_two_words(out: &mut Vec<u8>, first: &[u8], second: &[u8]) -> Result<(), AllocError>
    ensures { OnOk result (out.new.items ≡ out.old.items ++ line_text (record { first = first.now; rest = second.now ∷ [] })) }
{
    out.extend_from_slice(first)?;
    push_word(out, second)?;
    out.push(b'\n')?;
    Ok(())
}

// A word and the value behind it, as a line.
fn push_value_line(out: &mut Vec<u8>, first: &[u8], value: Quantity) -> Result<(), AllocError>
    ensures { OnOk result (out.new.items ≡ out.old.items ++ line_text (record { first = first.now; rest = value_text value ∷ [] })) }
{
    out.extend_from_slice(first)?;
    out.push(b' ')?;
    push_value(out, value)?;
    out.push(b'\n')?;
    Ok(())
}

// The first word of an element's line, behind a source or not.
fn element_word(sourced: bool, kind: Kind) -> &'static [u8]
    ensures { result.now ≡ element_word sourced kind }
{
    match kind {
        Kind::Src => { if sourced { b"input" } else { b"source" } }
        Kind::Res => b"r",
        Kind::Ind => b"l",
        Kind::Cap => b"c",
    }
}

// The line of an element between these nodes.
fn push_element(
    out: &mut Vec<u8>,
    word: &[u8],
    nodes: &[Name],
    element: &Element,
) -> Result<(), AllocError>
    requires from { element.now.from < length nodes.now }
    requires to { element.now.to < length nodes.now }
    ensures { OnOk result (out.new.items ≡ out.old.items ++ line_text (element_words word.now nodes.now element.now)) }
{
    out.extend_from_slice(word)?;
    push_word(out, element.name.as_bytes())?;
    push_word(out, nodes[element.from as usize].as_bytes())?;
    push_word(out, nodes[element.to as usize].as_bytes())?;
    out.push(b' ')?;
    push_value(out, element.value)?;
    out.push(b'\n')?;
    Ok(())
}

// The lines of elements between these nodes, behind a source or not.
#[tactic(auto, using(crate::proofs::PrintLemmas::elements_more, std::proofs::lemmas::List::drop_all))]
fn push_elements(
    out: &mut Vec<u8>,
    nodes: &[Name],
    sourced: bool,
    elements: &[Element],
) -> Result<(), AllocError>
    requires from { All (λ (e : Element). e.from < length nodes.now) elements.now }
    requires to { All (λ (e : Element). e.to < length nodes.now) elements.now }
    ensures { OnOk result (out.new.items ≡ out.old.items ++ lines_text (element_lines nodes.now sourced elements.now)) }
{
    let mut behind = sourced;
    for element in elements {
        push_element(out, element_word(behind, element.kind), nodes, element)?;
        behind = behind || element.kind.is_source();
    }
    Ok(())
}

// The line of the load.
fn push_load(out: &mut Vec<u8>, elements: &[Element], outlet: Outlet) -> Result<(), AllocError>
    requires { HasOutlet elements.now outlet }
    ensures { OnOk result (out.new.items ≡ out.old.items ++ lines_text (load_lines elements.now outlet)) }
{
    match outlet {
        Outlet::Load(number) => {
            push_two_words(out, b"load", elements[number as usize].name.as_bytes())?;
            Ok(())
        }
        Outlet::Source => Ok(()),
    }
}

// The line of the root, where it is not left to the source.
fn push_root(out: &mut Vec<u8>, elements: &[Element], root: RootChoice) -> Result<(), AllocError>
    requires { HasRoot elements.now root }
    ensures { OnOk result (out.new.items ≡ out.old.items ++ lines_text (root_lines elements.now root)) }
{
    match root {
        RootChoice::Source => Ok(()),
        RootChoice::Element(number) => {
            push_two_words(out, b"root", elements[number as usize].name.as_bytes())?;
            Ok(())
        }
        RootChoice::Shallow => {
            push_line(out, b"shallow")?;
            Ok(())
        }
    }
}

// The lines of a ladder's circuit.
fn push_ladder(out: &mut Vec<u8>, circuit: &Circuit) -> Result<(), AllocError>
    ensures { OnOk result (out.new.items ≡ out.old.items ++ lines_text (ladder_lines circuit.now)) }
{
    circuit.rules();
    push_elements(out, circuit.nodes(), false, circuit.elements())?;
    push_load(out, circuit.elements(), circuit.outlet())?;
    push_root(out, circuit.elements(), circuit.root())?;
    Ok(())
}

// The line that begins a branch between its first two nodes.
fn push_branch_line(out: &mut Vec<u8>, letter: &[u8], nodes: &[Name]) -> Result<(), AllocError>
    requires { 2 ≤ length nodes.now }
    ensures { OnOk result (out.new.items ≡ out.old.items ++ line_text (record { first = codes "branch"; rest = letter.now ∷ node_name nodes.now 0 ∷ node_name nodes.now 1 ∷ [] })) }
{
    out.extend_from_slice(b"branch")?;
    push_word(out, letter)?;
    push_word(out, nodes[0].as_bytes())?;
    push_word(out, nodes[1].as_bytes())?;
    out.push(b'\n')?;
    Ok(())
}

// The lines of a branch of a lattice.
#[tactic(auto, using(crate::proofs::PrintLemmas::two_nodes))]
fn push_branch(out: &mut Vec<u8>, letter: &[u8], circuit: &Circuit) -> Result<(), AllocError>
    ensures { OnOk result (out.new.items ≡ out.old.items ++ lines_text (branch_lines letter.now circuit.now)) }
{
    circuit.rules();
    push_branch_line(out, letter, circuit.nodes())?;
    push_elements(out, circuit.nodes(), true, &circuit.elements()[1..])?;
    push_root(out, circuit.elements(), circuit.root())?;
    Ok(())
}

// The lines of a lattice.
fn push_lattice(out: &mut Vec<u8>, a: &Circuit, b: &Circuit) -> Result<(), AllocError>
    ensures { OnOk result (out.new.items ≡ out.old.items ++ lines_text (form_lines (Lattice a.now b.now))) }
{
    push_value_line(out, b"lattice", a.elements()[0].value)?;
    push_branch(out, b"A", a)?;
    push_branch(out, b"B", b)?;
    Ok(())
}

// The lines of a netlist's circuits.
fn push_form(out: &mut Vec<u8>, form: &Form) -> Result<(), AllocError>
    ensures { OnOk result (out.new.items ≡ out.old.items ++ lines_text (form_lines form.now)) }
{
    match form {
        Form::Ladder(circuit) => {
            push_ladder(out, circuit)?;
            Ok(())
        }
        Form::Lattice { a, b } => {
            push_lattice(out, a, b)?;
            Ok(())
        }
    }
}

/// The canonical text of a netlist: its rate, and then its circuits line by line, as
/// `docs/netlist.md` says. [`read`](crate::read) gives the netlist back.
///
/// # Errors
///
/// Where no memory is left.
pub fn print(alloc: Global, netlist: &Netlist) -> Result<Vec<u8>, AllocError>
    ensures { IfOk result (λ text. text.items ≡ canonical netlist.now) }
{
    let mut out = Vec::new(alloc);
    push_two_words(
        &mut out,
        b"rate",
        Buffer::new().format(netlist.rate()).as_bytes(),
    )?;
    push_form(&mut out, netlist.form())?;
    Ok(out)
}
