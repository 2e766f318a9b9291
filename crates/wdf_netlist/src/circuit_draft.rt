//! A circuit whose lines are being read.

ghost use Rattle.std.specs.Prelude.{◌≡◌, OnOk, false};
ghost use Rattle.wdf_law.specs.Network.{is_reactance, is_source};
ghost use Rattle.wdf_netlist.specs.Drafts.{IsEmptyDraft, IsPushed};
ghost use Rattle.wdf_netlist.specs.TextRules.{is_resistor_at};
ghost use Rattle.wdf_netlist.specs.LineRules.{count_fault, count_parts, has_source, is_taken};

use crate::names::Names;
use crate::part::Part;
use crate::root_line::RootLine;
use crate::{MAX_ELEMENTS, MAX_REACTANCES, NetKind};
use std::alloc::{AllocError, Global};
use wdf_law::{Kind, MAX_SOURCES};

/// What the lines of one circuit have said so far.
#[derive(Drop)]
pub struct CircuitDraft {
    pub parts: Vec<Part>,
    /// The names of the parts.
    pub names: Names,
    pub root: Option<RootLine>,
}

impl CircuitDraft {
    pub fn new(alloc: Global) -> CircuitDraft
        ensures { IsEmptyDraft result }
    {
        CircuitDraft {
            parts: Vec::new(alloc),
            names: Names::new(alloc),
            root: None,
        }
    }

    /// Whether there is a source.
    pub fn has_source(&self) -> bool
        ensures { result ≡ has_source self.now.parts.items }
    {
        self.parts.iter().any(|part| part.kind.is_source())
    }

    /// Whether the element with this number is a resistor.
    pub fn is_resistor_at(&self, number: usize) -> bool
        ensures { result ≡ is_resistor_at self.now.parts.items number }
    {
        match self.parts.get(number) {
            Some(part) => part.kind.is_resistor(),
            None => false,
        }
    }

    /// Why one element more of this kind is too many.
    pub fn count_fault(&self, kind: Kind) -> Option<NetKind>
        ensures { result ≡ count_fault self.now.parts.items kind }
    {
        if self.parts.len() >= MAX_ELEMENTS {
            return Some(NetKind::TooManyElements);
        }
        if kind.is_reactance() && self.reactances() >= MAX_REACTANCES {
            return Some(NetKind::TooManyStates);
        }
        if kind.is_source() && self.sources() >= MAX_SOURCES {
            return Some(NetKind::TooManyInputs);
        }
        None
    }

    // How many capacitors and inductors there are.
    fn reactances(&self) -> usize
        ensures { result ≡ count_parts is_reactance self.now.parts.items }
    {
        self.parts
            .iter()
            .filter(|part| part.kind.is_reactance())
            .count()
    }

    // How many sources there are.
    fn sources(&self) -> usize
        ensures { result ≡ count_parts is_source self.now.parts.items }
    {
        self.parts
            .iter()
            .filter(|part| part.kind.is_source())
            .count()
    }

    /// Adds an element, whose name is new.
    pub fn push(&mut self, part: Part) -> Result<(), AllocError>
        requires { is_taken self.old.names part.name ≡ false }
        ensures { OnOk result (IsPushed self.old part self.new) }
    {
        let name = part.name;
        self.parts.push(part)?;
        self.names.insert(name)
    }
}
