//! The words of one line, read one by one.

ghost use Rattle.std.specs.Prelude.{◌≡◌, ◌≢◌, ◌≤◌, IfOk, IfSome, List, None, false, map, true, ℕ};
ghost use Rattle.wdf_text.specs.Names.{IsName};
ghost use Rattle.wdf_text.specs.Numbers.{number_of};
ghost use Rattle.wdf_netlist.specs.Circuits.{IsElementValue};
ghost use Rattle.wdf_netlist.specs.Lines.{word_in};
ghost use Rattle.wdf_netlist.specs.LineRules.{fault_at, frames, is_next_letter, is_taken, known_name, letter, mention_of, new_name, node, other_node, own_parts, value};
ghost use Rattle.wdf_netlist.specs.Places.{AreWordsIn, Ends, HasRate, NamesWord, Reads, Takes};
ghost use Rattle.wdf_netlist.specs.Statements.{Statement, branches, names_of};
ghost use Rattle.wdf_netlist.specs.Values.{value_of};

use crate::mention::Mention;
use crate::names::{Names, same};
use crate::values::value_of;
use crate::{MAX_RATE, NetFault, NetKind};
use std::marker::Model;
use wdf_text::{Name, Quantity, Word, whole};

/// A place in a line: the word before it, the name of the line's element, load or root, and the
/// words behind it.
#[derive(Drop)]
pub struct LineReader<'a> {
    text: &'a [u8],
    previous: Word,
    name: Option<Name>,
    rest: &'a [Word],
}

impl<'a> Model for LineReader<'a> {
    ghost use Rattle.std.specs.Prelude.{map};
    ghost use Rattle.wdf_netlist.specs.LineRules.{Place};

    ghost Value = { Place };

    ghost use Rattle.std.specs.Prelude.{◌∷◌};
    ghost use Rattle.wdf_netlist.specs.Lines.{word_in};
    ghost use Rattle.wdf_netlist.specs.Places.{AreWordsIn};

    ghost view = { λ r. record { previous = word_in r.text.now r.previous; name = r.name; words = map (word_in r.text.now) r.rest.now } };

    ghost invariant = { λ r. AreWordsIn r.text.now r.previous r.rest.now };
}

impl<'a> LineReader<'a> {
    /// Before the second word of a line.
    pub fn new(text: &'a [u8], first: Word, rest: &'a [Word]) -> LineReader<'a>
        requires { AreWordsIn text.now first rest.now }
        ensures { result ≡ record { previous = word_in text.now first; name = None; words = map (word_in text.now) rest.now } }
    {
        LineReader {
            text,
            previous: first,
            name: None,
            rest,
        }
    }

    // The bytes of the word before.
    fn bytes(&self) -> &[u8]
        ensures { result.now ≡ self.now.previous.bytes }
    {
        &self.text[self.previous.start..self.previous.start + self.previous.len]
    }

    // A fault at the word before.
    fn fault(&self, kind: NetKind) -> NetFault
        ensures { result ≡ fault_at kind self.now.previous self.now.name }
    {
        NetFault {
            kind,
            line: self.previous.line,
            column: self.previous.column,
            name: self.name,
        }
    }

    // Goes to the next word.
    #[tactic(auto, using(crate::proofs::PlaceLemmas::next_words))]
    fn take(&mut self) -> Result<(), NetFault>
        ensures { Takes self.old self.new result }
    {
        match self.rest.split_first() {
            Some((word, rest)) => {
                self.previous = *word;
                self.rest = rest;
                Ok(())
            }
            None => Err(NetFault {
                kind: NetKind::Syntax,
                line: self.previous.line,
                column: self.previous.column + self.previous.len as u32,
                name: self.name,
            }),
        }
    }

    /// No word is left over.
    pub fn end(&self) -> Result<(), NetFault>
        ensures { Ends self.now result }
    {
        match self.rest.split_first() {
            None => Ok(()),
            Some((word, _)) => Err(self.fault_at(NetKind::Syntax, *word)),
        }
    }

    // The word before, as a name.
    fn name(&self) -> Result<Name, NetFault>
        ensures word { NamesWord self.now result }
        ensures named { IfOk result IsName }
    {
        match Name::new(self.bytes()) {
            Some(name) => Ok(name),
            None => Err(self.fault(NetKind::BadName)),
        }
    }

    /// A fault at a word of the line.
    pub fn fault_at(&self, kind: NetKind, word: Word) -> NetFault
        ensures { (text : List ℕ) → result ≡ fault_at kind (word_in text word) self.now.name }
    {
        NetFault {
            kind,
            line: word.line,
            column: word.column,
            name: self.name,
        }
    }

    /// The name of a node.
    pub fn node(&mut self) -> Result<Name, NetFault>
        ensures reads { (before : List Statement) → Reads before node self.old self.new result }
        ensures value { IfOk result (λ n. n ≡ self.new.previous.bytes) }
        ensures named { IfOk result IsName }
    {
        self.take()?;
        self.name()
    }

    /// The name of a node that is not `from`, the word before.
    #[tactic(auto, using(crate::proofs::NameLemmas::other_name))]
    pub fn other_node(&mut self, from: Name) -> Result<Name, NetFault>
        requires { from ≡ self.old.previous.bytes }
        ensures reads { (before : List Statement) → Reads before other_node self.old self.new result }
        ensures value { IfOk result (λ n. n ≡ self.new.previous.bytes) }
        ensures named { IfOk result IsName }
        ensures other { IfOk result (λ n. from ≢ n) }
    {
        self.take()?;
        let name = self.name()?;
        if same(&name, &from) {
            return Err(self.fault(NetKind::Shorted));
        }
        Ok(name)
    }

    /// The name of a new element, which none of these is.
    pub fn new_name(&mut self, taken: &Names) -> Result<Name, NetFault>
        ensures reads { (before : List Statement) → taken.now ≡ names_of (own_parts before) → Reads before new_name self.old self.new result }
        ensures value { IfOk result (λ n. n ≡ self.new.previous.bytes) }
        ensures named { IfOk result IsName }
        ensures new { IfOk result (λ n. is_taken taken.now n ≡ false) }
    {
        self.take()?;
        let name = self.name()?;
        self.name = Some(name);
        if taken.has(&name) {
            return Err(self.fault(NetKind::DoubleName));
        }
        Ok(name)
    }

    /// The name of an element that stands in some line.
    pub fn known_name(&mut self) -> Result<Mention, NetFault>
        ensures reads { (before : List Statement) → Reads before known_name self.old self.new result }
        ensures value { IfOk result (λ m. m ≡ mention_of self.new.previous) }
        ensures named { IfOk result (λ m. IsName m.name) }
    {
        self.take()?;
        let name = self.name()?;
        self.name = Some(name);
        Ok(Mention {
            name,
            line: self.previous.line,
            column: self.previous.column,
        })
    }

    /// A value with its unit.
    pub fn value(&mut self) -> Result<Quantity, NetFault>
        ensures reads { (before : List Statement) → Reads before value self.old self.new result }
        ensures value { IfOk result (λ q. q ≡ value_of self.new.previous.bytes) }
        ensures element { IfOk result IsElementValue }
    {
        self.take()?;
        match value_of(self.bytes()) {
            Ok(value) => Ok(value),
            Err(kind) => Err(self.fault(kind)),
        }
    }

    /// A rate.
    pub fn rate(&mut self) -> Result<u32, NetFault>
        ensures reads { (before : List Statement) → Reads before frames self.old self.new result }
        ensures value { IfOk result (λ n. n ≡ number_of self.new.previous.bytes) }
        ensures range { IfOk result (λ n. (1 ≤ n) × (n ≤ MAX_RATE)) }
    {
        self.take()?;
        match rate_of(self.bytes()) {
            Some(rate) => Ok(rate),
            None => Err(self.fault(NetKind::RateRange)),
        }
    }

    /// The letter of the branch that begins behind so many.
    pub fn letter(&mut self, begun: u32) -> Result<(), NetFault>
        ensures reads { (before : List Statement) → begun ≡ branches before → Reads before letter self.old self.new result }
        ensures begun { IfOk result (λ _. begun ≤ 1) }
    {
        self.take()?;
        if is_next_letter(self.bytes(), begun) {
            return Ok(());
        }
        Err(self.fault(NetKind::Syntax))
    }
}

// The rate that a word writes, in frames per second; None where it is out of range.
fn rate_of(word: &[u8]) -> Option<u32>
    ensures rate { HasRate word.now result }
    ensures range { IfSome result (λ n. (1 ≤ n) × (n ≤ MAX_RATE)) }
{
    let rate = whole(word)?;
    if rate < 1 || rate > u64::from(MAX_RATE) {
        return None;
    }
    Some(rate as u32)
}

// Whether the word is the letter of the branch that begins behind so many.
fn is_next_letter(word: &[u8], begun: u32) -> bool
    ensures letter { result ≡ is_next_letter begun word.now }
    ensures begun { result ≡ true → begun ≤ 1 }
{
    (begun == 0 && word == b"A".as_slice()) || (begun == 1 && word == b"B".as_slice())
}
