//! A line of each kind, read and taken into the draft.

ghost use Rattle.std.specs.Prelude.{◌≡◌, ◌==◌, IsSome, List, None, slice_index_or, true, ℕ};
ghost use Rattle.wdf_netlist.specs.declared.read_error.ReadError.TheVariants.{Fault};
ghost use Rattle.wdf_netlist.specs.declared.keyword.Keyword.TheVariants.{Lattice, Load, Rate, Root, Shallow};
ghost use Rattle.wdf_netlist.specs.Drafts.{BelongsTo, Continues, HasPlace, Holds, Reflects, added, line_in};
ghost use Rattle.wdf_netlist.specs.Lines.{is_comment, word_in};
ghost use Rattle.wdf_netlist.specs.LineRules.{branch_line, element_line, fault_at, keyword_fault, known_said, lattice_line, line_said, load_line, rate_line, root_line, shallow_line, words_said};
ghost use Rattle.wdf_netlist.specs.Places.{AreWordsIn};
ghost use Rattle.wdf_netlist.specs.Statements.{Statement};

use crate::draft::Draft;
use crate::keyword::{Keyword, keyword_of};
use crate::line_reader::LineReader;
use crate::lines::{
    branch_line, element_line, lattice_line, load_line, rate_line, root_line, shallow_line,
};
use crate::{NetFault, NetKind, ReadError};
use std::alloc::Global;
use wdf_law::Kind;
use wdf_text::Word;

fn read_rate(draft: &mut Draft, reader: &mut LineReader) -> Result<(), ReadError>
    ensures { (before : List Statement) → Reflects draft.old before → keyword_fault before Rate ≡ None
        → Continues draft.new before result (rate_line before reader.old) }
{
    let frames = rate_line(reader)?;
    draft.say_rate(frames);
    Ok(())
}

fn read_element(
    draft: &mut Draft,
    reader: &mut LineReader,
    first: Word,
    kind: Kind,
) -> Result<(), ReadError>
    requires { BelongsTo draft.old kind }
    ensures { (text : List ℕ) (before : List Statement) → Reflects draft.old before
        → Continues draft.new before result (element_line before kind (word_in text first) reader.old) }
{
    let part = element_line(reader, first, kind, &draft.own)?;
    draft.say_element(part)?;
    Ok(())
}

fn read_load(draft: &mut Draft, reader: &mut LineReader) -> Result<(), ReadError>
    ensures { (before : List Statement) → Reflects draft.old before → keyword_fault before Load ≡ None
        → Continues draft.new before result (load_line before reader.old) }
{
    let name = load_line(reader)?;
    draft.say_load(name);
    Ok(())
}

fn read_root(draft: &mut Draft, reader: &mut LineReader) -> Result<(), ReadError>
    ensures { (before : List Statement) → Reflects draft.old before → keyword_fault before Root ≡ None
        → Continues draft.new before result (root_line before reader.old) }
{
    let line = root_line(reader)?;
    draft.say_root(line);
    Ok(())
}

fn read_shallow(draft: &mut Draft, reader: &mut LineReader) -> Result<(), ReadError>
    ensures { (before : List Statement) → Reflects draft.old before → keyword_fault before Shallow ≡ None
        → Continues draft.new before result (shallow_line reader.old) }
{
    let line = shallow_line(reader)?;
    draft.say_root(line);
    Ok(())
}

fn read_lattice(draft: &mut Draft, reader: &mut LineReader) -> Result<(), ReadError>
    requires { draft.old.only_rates ≡ true }
    ensures { (before : List Statement) → Reflects draft.old before → keyword_fault before Lattice ≡ None
        → Continues draft.new before result (lattice_line before reader.old) }
{
    let value = lattice_line(reader)?;
    draft.say_lattice(value);
    Ok(())
}

fn read_branch(alloc: Global, draft: &mut Draft, reader: &mut LineReader) -> Result<(), ReadError>
    requires { IsSome draft.old.termination }
    ensures { (before : List Statement) → Reflects draft.old before → Continues draft.new before result (branch_line before reader.old) }
{
    let ends = branch_line(reader, draft.begun)?;
    draft.say_branch(alloc, ends.from, ends.to)?;
    Ok(())
}

// Reads the words behind a keyword that may stand here.
fn read_words(
    alloc: Global,
    draft: &mut Draft,
    keyword: Keyword,
    first: Word,
    reader: &mut LineReader,
) -> Result<(), ReadError>
    requires { HasPlace draft.old keyword }
    ensures { (text : List ℕ) (before : List Statement) → Reflects draft.old before → keyword_fault before keyword ≡ None
        → Continues draft.new before result (words_said before keyword (word_in text first) reader.old) }
{
    match keyword {
        Keyword::Rate => read_rate(draft, reader),
        Keyword::Source => read_element(draft, reader, first, Kind::Src),
        Keyword::Input => read_element(draft, reader, first, Kind::Src),
        Keyword::Resistor => read_element(draft, reader, first, Kind::Res),
        Keyword::Inductor => read_element(draft, reader, first, Kind::Ind),
        Keyword::Capacitor => read_element(draft, reader, first, Kind::Cap),
        Keyword::Load => read_load(draft, reader),
        Keyword::Root => read_root(draft, reader),
        Keyword::Shallow => read_shallow(draft, reader),
        Keyword::Lattice => read_lattice(draft, reader),
        Keyword::Branch => read_branch(alloc, draft, reader),
    }
}

// A fault of a line's first word.
fn first_fault(kind: NetKind, first: Word) -> ReadError
    ensures { (text : List ℕ) → result ≡ Fault (fault_at kind (word_in text first) None) }
{
    ReadError::Fault(NetFault {
        kind,
        line: first.line,
        column: first.column,
        name: None,
    })
}

// Reads a line that is no comment.
fn read_statement(
    alloc: Global,
    draft: &mut Draft,
    text: &[u8],
    first: Word,
    rest: &[Word],
) -> Result<(), ReadError>
    requires { AreWordsIn text.now first rest.now }
    ensures { (before : List Statement) → Reflects draft.old before → Continues draft.new before result (line_said before (line_in text.now first rest.now)) }
{
    match keyword_of(&text[first.start..first.start + first.len]) {
        None => Err(first_fault(NetKind::Syntax, first)),
        Some(keyword) => {
            let mut reader = LineReader::new(text, first, rest);
            read_keyword(alloc, draft, keyword, first, &mut reader)
        }
    }
}

// Reads a line by its keyword.
fn read_keyword(
    alloc: Global,
    draft: &mut Draft,
    keyword: Keyword,
    first: Word,
    reader: &mut LineReader,
) -> Result<(), ReadError>
    ensures { (text : List ℕ) (before : List Statement) → Reflects draft.old before
        → Continues draft.new before result (known_said before keyword (word_in text first) reader.old) }
{
    match draft.keyword_fault(keyword) {
        Some(kind) => Err(first_fault(kind, first)),
        None => read_words(alloc, draft, keyword, first, reader),
    }
}

// Whether a word begins with `*`.
fn is_comment(word: &[u8]) -> bool
    ensures { result ≡ (slice_index_or word.now 0 0 == 42) }
{
    word.first() == Some(&b'*')
}

/// Reads a line, by its first word and the words behind it, and takes in what it says.
pub fn read_line(
    alloc: Global,
    draft: &mut Draft,
    text: &[u8],
    first: Word,
    rest: &[Word],
) -> Result<(), ReadError>
    requires { AreWordsIn text.now first rest.now }
    ensures { (before : List Statement) → Reflects draft.old before → Holds draft.new result (added before (line_in text.now first rest.now)) }
{
    if is_comment(&text[first.start..first.start + first.len]) {
        return Ok(());
    }
    read_statement(alloc, draft, text, first, rest)
}
