//! The lines and words of a text.

ghost use Rattle.std.specs.Prelude.{◌≡◌, ◌+◌, ◌<◌, ◌≤◌, ◌∷◌, [], IfNone, IfSome, ℕ, List, IsTrue, MatchOption, drop, length, slice_index};
ghost use Rattle.wdf_text.specs.Placing.{IsPlaced, ends_line, is_between, is_word_byte, words_after};
ghost use Rattle.wdf_text.specs.Words.{words_of};

use crate::place::Place;
use crate::word::Word;
use std::marker::Model;

/// The longest text, in bytes.
pub const MAX_TEXT: usize = 1_048_576;

/// Goes over the words of a text, from its front on.
///
/// Lines end at LF. One CR directly before LF or at the end of the text is dropped; any other CR is a
/// byte of a word. Words are parted by spaces and tabs. Contracts see the text and the words that are
/// left.
#[derive(Drop)]
pub struct Cursor<'a> {
    text: &'a [u8],
    place: Place,
}

impl<'a> Model for Cursor<'a> {
    ghost use Rattle.std.specs.Prelude.{drop, length, ◌≤◌};
    ghost use Rattle.wdf_text.specs.Left.{Left};

    ghost Value = { Left };

    ghost use Rattle.wdf_text.specs.Placing.{IsKept, words_after};

    ghost view = { λ c. record {
      text = c.text.now;
      words = words_after (drop c.place.at c.text.now) c.place.line c.place.at c.place.column 0;
    } };

    ghost invariant = { λ c. IsKept c.text.now c.place };
}

// Whether a line ends at this offset: at LF or at the end of the text.
fn ends_line(text: &[u8], at: usize) -> bool
    requires { at ≤ length text.now }
    ensures { result ≡ ends_line (drop at text.now) }
{
    at == text.len() || text[at] == b'\n'
}

// Whether the byte at this offset parts words within a line, or is the CR that ends it.
fn is_between(text: &[u8], at: usize) -> bool
    requires { at < length text.now }
    ensures { result ≡ is_between (slice_index text.now at) (drop (at + 1) text.now) }
{
    match text[at] {
        b' ' | b'\t' => true,
        b'\r' => ends_line(text, at + 1),
        _ => false,
    }
}

// Whether the byte at this offset is a word's.
fn is_word_byte(text: &[u8], at: usize) -> bool
    requires { at < length text.now }
    ensures { result ≡ is_word_byte (slice_index text.now at) (drop (at + 1) text.now) }
{
    text[at] != b'\n' && !is_between(text, at)
}

// The place of the next word's first byte, or the end of the text.
fn next_place(text: &[u8], from: Place) -> Place
    requires short { length text.now ≤ MAX_TEXT }
    requires placed { IsPlaced text.now from }
    ensures placed { IsPlaced text.now result }
    ensures same { words_after (drop result.at text.now) result.line result.at result.column 0
        ≡ words_after (drop from.at text.now) from.line from.at from.column 0 }
    ensures here { result.at < length text.now
        → IsTrue (is_word_byte (slice_index text.now result.at) (drop (result.at + 1) text.now)) }
{
    let mut place = from;
    while place.at < text.len() {
        if is_word_byte(text, place.at) {
            return place;
        }
        if text[place.at] == b'\n' {
            place.line += 1;
            place.column = 1;
        } else {
            place.column += 1;
        }
        place.at += 1;
    }
    place
}

// How many bytes the word has that begins at this offset.
fn word_len(text: &[u8], at: usize) -> usize
    requires within { at < length text.now }
    requires here { IsTrue (is_word_byte (slice_index text.now at) (drop (at + 1) text.now)) }
    ensures some { 1 ≤ result }
    ensures within { at + result ≤ length text.now }
    ensures word { (line column : ℕ) → words_after (drop at text.now) line at column 0
        ≡ record { start = at; len = result; line = line; column = column }
        ∷ words_after (drop (at + result) text.now) line (at + result) (column + result) 0 }
{
    let mut len = 1;
    while at + len < text.len() && is_word_byte(text, at + len) {
        len += 1;
    }
    len
}

impl<'a> Cursor<'a> {
    /// A cursor before the first word of the text.
    pub fn new(text: &'a [u8]) -> Cursor<'a>
        requires { length text.now ≤ MAX_TEXT }
        ensures text { result.text ≡ text.now }
        ensures words { result.words ≡ words_of text.now }
    {
        Cursor {
            text,
            place: Place {
                at: 0,
                line: 1,
                column: 1,
            },
        }
    }

    /// The next word of the text; None where none is left.
    pub fn next_word(&mut self) -> Option<Word>
        ensures next { MatchOption result (self.old.words ≡ []) (λ word. self.old.words ≡ word ∷ self.new.words) }
        ensures end { IfNone result (self.new.words ≡ []) }
        ensures text { self.new.text ≡ self.old.text }
        ensures within { IfSome result (λ word. word.start + word.len ≤ length self.old.text) }
        ensures some { IfSome result (λ word. 1 ≤ word.len) }
        ensures column { IfSome result (λ word. word.column ≤ word.start + 1) }
    {
        let place = next_place(self.text, self.place);
        if place.at == self.text.len() {
            self.place = place;
            return None;
        }
        let len = word_len(self.text, place.at);
        self.place = Place {
            at: place.at + len,
            line: place.line,
            column: place.column + len as u32,
        };
        Some(Word {
            start: place.at,
            len,
            line: place.line,
            column: place.column,
        })
    }
}
