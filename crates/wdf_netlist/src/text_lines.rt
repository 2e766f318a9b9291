//! The lines of a text, one by one.

ghost use Rattle.std.specs.Prelude.{◌≡◌, ◌≤◌, ◌++◌, [], All, IfOk, IfSome, length};
ghost use Rattle.wdf_netlist.specs.Lines.{lines_of};
ghost use Rattle.wdf_netlist.specs.NetlistText.{all_said};
ghost use Rattle.wdf_netlist.specs.Places.{IsWordIn};
ghost use Rattle.wdf_netlist.specs.Taking.{DraftOf, IsLineTaken, ahead_words};

use crate::ReadError;
use crate::draft::Draft;
use crate::sayings::read_line;
use std::alloc::{AllocError, Global};
use wdf_text::{Cursor, MAX_TEXT, Word};

// Puts the words of a line behind its first word into `rest`, and gives the first word of the next.
fn take_line(
    cursor: &mut Cursor,
    first: Word,
    rest: &mut Vec<Word>,
) -> Result<Option<Word>, AllocError>
    ensures text { cursor.new.text ≡ cursor.old.text }
    ensures line { IfOk result (λ ahead. IsLineTaken first cursor.old.words rest.new.items ahead cursor.new.words) }
    ensures rest { IfOk result (λ _. All (IsWordIn cursor.old.text) rest.new.items) }
    ensures ahead { IfOk result (λ ahead. IfSome ahead (IsWordIn cursor.old.text)) }
    ensures fewer { IfOk result (λ ahead. length (ahead_words ahead ++ cursor.new.words) ≤ length cursor.old.words) }
{
    rest.clear();
    while let Some(word) = cursor.next_word() {
        if word.line != first.line {
            return Ok(Some(word));
        }
        rest.push(word)?;
    }
    Ok(None)
}

/// Reads all lines of a text.
pub fn read_lines(alloc: Global, text: &[u8]) -> Result<Draft, ReadError>
    requires { length text.now ≤ MAX_TEXT }
    ensures { DraftOf result (all_said [] (lines_of text.now)) }
{
    let mut cursor = Cursor::new(text);
    let mut draft = Draft::new(alloc);
    let mut rest = Vec::new(alloc);
    let mut ahead = cursor.next_word();
    while let Some(first) = ahead {
        ahead = take_line(&mut cursor, first, &mut rest)?;
        read_line(alloc, &mut draft, text, first, &rest)?;
    }
    Ok(draft)
}
