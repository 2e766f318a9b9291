//! The table of lines: what each kind of line says.

ghost use Rattle.std.specs.Prelude.{◌≡◌, ◌≢◌, ◌≤◌, IfOk, List, ℕ};
ghost use Rattle.wdf_text.specs.Names.{IsName};
ghost use Rattle.wdf_netlist.specs.Circuits.{IsElementValue};
ghost use Rattle.wdf_netlist.specs.declared.lines.Ends.{Ends};
ghost use Rattle.wdf_netlist.specs.Drafts.{IsAtName, IsDraftOf, IsNewPart, Says};
ghost use Rattle.wdf_netlist.specs.Lines.{word_in};
ghost use Rattle.wdf_netlist.specs.LineRules.{branch_line, element_line, lattice_line, load_line, rate_line, root_line, shallow_line, termination};
ghost use Rattle.wdf_netlist.specs.Statements.{Statement, branch, branch_part, branches, element, last_circuit, lattice, load, rate, root};

use crate::circuit_draft::CircuitDraft;
use crate::line_reader::LineReader;
use crate::mention::Mention;
use crate::part::Part;
use crate::root_line::RootLine;
use crate::{MAX_RATE, NetFault};
use wdf_law::Kind;
use wdf_text::{Name, Quantity, Word};

/// The nodes of a branch.
#[derive(Clone, Copy, Debug)]
pub struct Ends {
    pub from: Name,
    pub to: Name,
}

/// `rate N`
pub fn rate_line(reader: &mut LineReader) -> Result<u32, NetFault>
    ensures said { (before : List Statement) → Says rate result (rate_line before reader.old) }
    ensures range { IfOk result (λ n. (1 ≤ n) × (n ≤ MAX_RATE)) }
{
    let frames = reader.rate()?;
    reader.end()?;
    Ok(frames)
}

/// `KEYWORD NAME FROM TO VALUE`, an element of this circuit; `first` is the line's first word.
#[tactic(auto, using(crate::proofs::NameLemmas::name_letters))]
pub fn element_line(
    reader: &mut LineReader,
    first: Word,
    kind: Kind,
    own: &CircuitDraft,
) -> Result<Part, NetFault>
    ensures said { (text : List ℕ) (before : List Statement) → IsDraftOf own.now (last_circuit before) → Says element result (element_line before kind (word_in text first) reader.old) }
    ensures new { IfOk result (IsNewPart own.now) }
    ensures named { IfOk result (λ p. (IsName p.name) × (p.kind ≡ kind)) }
{
    let name = reader.new_name(&own.names)?;
    let from = reader.node()?;
    let to = reader.other_node(from)?;
    let value = reader.value()?;
    reader.end()?;
    if let Some(fault) = own.count_fault(kind) {
        return Err(reader.fault_at(fault, first));
    }
    Ok(Part {
        kind,
        name,
        from,
        to,
        value,
    })
}

/// `load NAME`
pub fn load_line(reader: &mut LineReader) -> Result<Mention, NetFault>
    ensures { (before : List Statement) → Says load result (load_line before reader.old) }
{
    let name = reader.known_name()?;
    reader.end()?;
    Ok(name)
}

/// `root NAME`
pub fn root_line(reader: &mut LineReader) -> Result<RootLine, NetFault>
    ensures said { (before : List Statement) → Says root result (root_line before reader.old) }
    ensures named { IfOk result IsAtName }
{
    let name = reader.known_name()?;
    reader.end()?;
    Ok(RootLine::At(name))
}

/// `shallow`
pub fn shallow_line(reader: &mut LineReader) -> Result<RootLine, NetFault>
    ensures said { Says root result (shallow_line reader.old) }
    ensures named { IfOk result IsAtName }
{
    reader.end()?;
    Ok(RootLine::Shallow)
}

/// `lattice VALUE`
pub fn lattice_line(reader: &mut LineReader) -> Result<Quantity, NetFault>
    ensures said { (before : List Statement) → Says lattice result (lattice_line before reader.old) }
    ensures value { IfOk result IsElementValue }
{
    let value = reader.value()?;
    reader.end()?;
    Ok(value)
}

/// `branch LETTER FROM TO`, behind so many branches.
pub fn branch_line(reader: &mut LineReader, begun: u32) -> Result<Ends, NetFault>
    ensures said { (before : List Statement) → begun ≡ branches before
        → Says (λ (e : Ends). branch (branch_part e.from e.to (termination before))) result (branch_line before reader.old) }
    ensures begun { IfOk result (λ _. begun ≤ 1) }
    ensures ends { IfOk result (λ e. (e.from ≢ e.to) × (IsName e.from) × (IsName e.to)) }
{
    reader.letter(begun)?;
    let from = reader.node()?;
    let to = reader.other_node(from)?;
    reader.end()?;
    Ok(Ends { from, to })
}
