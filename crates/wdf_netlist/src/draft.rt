//! A netlist whose lines are being read.

ghost use Rattle.std.specs.Prelude.{◌≡◌, ◌≢◌, ◌++◌, ◌∷◌, [], ◌≤◌, IsSome, List, None, OnOk, Some, false, true};
ghost use Rattle.wdf_text.specs.DecimalNumber.{DecimalNumber};
ghost use Rattle.wdf_netlist.specs.declared.part.Part.{Part};
ghost use Rattle.wdf_text.specs.Names.{IsName};
ghost use Rattle.wdf_netlist.specs.Circuits.{IsElementValue};
ghost use Rattle.wdf_netlist.specs.Drafts.{BelongsTo, HasPlace, IsAtName, IsNewPart, IsSourceAlone, Reflects};
ghost use Rattle.wdf_netlist.specs.LineRules.{double_fault, keyword_fault, may_stand, termination};
ghost use Rattle.wdf_netlist.specs.Statements.{Statement, branch, branch_part, element, first_said, lattice, load, load_said, rate, rate_said, root, root_said, last_circuit, termination_said};

use crate::circuit_draft::CircuitDraft;
use crate::keyword::Keyword;
use crate::mention::Mention;
use crate::part::Part;
use crate::root_line::RootLine;
use crate::{MAX_RATE, NetKind};
use std::alloc::{AllocError, Global};
use std::mem;
use wdf_law::Kind;
use wdf_text::{Name, Quantity};

/// What the lines so far have said.
#[derive(Drop)]
pub struct Draft {
    pub rate: Option<u32>,
    pub load: Option<Mention>,
    /// The value of a lattice's termination.
    pub termination: Option<Quantity>,
    pub only_rates: bool,
    /// How many branches are begun, at most 2.
    pub begun: u32,
    /// The first branch, once the second is begun.
    pub first: Option<CircuitDraft>,
    /// The ladder, or the branch that was begun last.
    pub own: CircuitDraft,
}

impl Draft {
    pub fn new(alloc: Global) -> Draft
        ensures { Reflects result [] }
    {
        Draft {
            rate: None,
            load: None,
            termination: None,
            only_rates: true,
            begun: 0,
            first: None,
            own: CircuitDraft::new(alloc),
        }
    }

    // Whether a line with this first word may stand here.
    fn may_stand(&self, keyword: Keyword) -> bool
        ensures stands { (before : List Statement) → Reflects self.now before → result ≡ may_stand before keyword }
        ensures place { result ≡ true → HasPlace self.now keyword }
    {
        let in_lattice = self.termination.is_some();
        match keyword {
            Keyword::Rate => true,
            Keyword::Source | Keyword::Input | Keyword::Load => !in_lattice,
            Keyword::Lattice => self.only_rates,
            Keyword::Branch => in_lattice,
            Keyword::Resistor | Keyword::Inductor | Keyword::Capacitor => !in_lattice
                || self.begun >= 1,
            Keyword::Root | Keyword::Shallow => !in_lattice || self.begun >= 1,
        }
    }

    // A second line of its sort, or an input before the source.
    fn double_fault(&self, keyword: Keyword) -> Option<NetKind>
        ensures { (before : List Statement) → Reflects self.now before → result ≡ double_fault before keyword }
    {
        match keyword {
            Keyword::Rate if self.rate.is_some() => Some(NetKind::DoubleRate),
            Keyword::Source if self.own.has_source() => Some(NetKind::DoubleSource),
            Keyword::Input if !self.own.has_source() => Some(NetKind::InputFirst),
            Keyword::Load if self.load.is_some() => Some(NetKind::DoubleLoad),
            Keyword::Root | Keyword::Shallow if self.own.root.is_some() => Some(
                NetKind::DoubleRoot,
            ),
            _ => None,
        }
    }

    /// The fault of a line's first word.
    pub fn keyword_fault(&self, keyword: Keyword) -> Option<NetKind>
        ensures fault { (before : List Statement) → Reflects self.now before → result ≡ keyword_fault before keyword }
        ensures place { result ≡ None → HasPlace self.now keyword }
    {
        if !self.may_stand(keyword) {
            return Some(NetKind::Syntax);
        }
        self.double_fault(keyword)
    }

    /// Takes in what a rate line says.
    pub fn say_rate(&mut self, frames: u32)
        requires range { (1 ≤ frames) × (frames ≤ MAX_RATE) }
        ensures { (before : List Statement) → Reflects self.old before → first_said rate_said before ≡ None → Reflects self.new (before ++ rate frames ∷ []) }
    {
        self.rate = Some(frames);
    }

    /// Takes in what an element's line says.
    pub fn say_element(&mut self, part: Part) -> Result<(), AllocError>
        requires new { IsNewPart self.old.own part }
        requires named { IsName part.name }
        requires place { BelongsTo self.old part.kind }
        ensures { OnOk result ((before : List Statement) → Reflects self.old before → Reflects self.new (before ++ element part ∷ [])) }
    {
        self.only_rates = false;
        self.own.push(part)?;
        Ok(())
    }

    /// Takes in what a load line says.
    pub fn say_load(&mut self, name: Mention)
        ensures { (before : List Statement) → Reflects self.old before → first_said load_said before ≡ None → Reflects self.new (before ++ load name ∷ []) }
    {
        self.only_rates = false;
        self.load = Some(name);
    }

    /// Takes in what a root line or a shallow line says.
    pub fn say_root(&mut self, line: RootLine)
        requires { IsAtName line }
        ensures { (before : List Statement) → Reflects self.old before → first_said root_said (last_circuit before) ≡ None → Reflects self.new (before ++ root line ∷ []) }
    {
        self.only_rates = false;
        self.own.root = Some(line);
    }

    /// Takes in what a lattice line says.
    pub fn say_lattice(&mut self, value: Quantity)
        requires rates { self.old.only_rates ≡ true }
        requires value { IsElementValue value }
        ensures { (before : List Statement) → Reflects self.old before → first_said termination_said before ≡ None → Reflects self.new (before ++ lattice value ∷ []) }
    {
        self.only_rates = false;
        self.termination = Some(value);
    }

    /// Takes in what a branch line says, behind one branch at most.
    pub fn say_branch(&mut self, alloc: Global, from: Name, to: Name) -> Result<(), AllocError>
        requires begun { self.old.begun ≤ 1 }
        requires lattice { IsSome self.old.termination }
        requires differ { from ≢ to }
        requires from { IsName from }
        requires to { IsName to }
        ensures { OnOk result ((before : List Statement) → Reflects self.old before
            → Reflects self.new (before ++ branch (branch_part from to (termination before)) ∷ [])) }
    {
        let value = self.termination.unwrap();
        let mut own = CircuitDraft::new(alloc);
        own.push(Part {
            kind: Kind::Src,
            name: Name::at_sign(),
            from,
            to,
            value,
        })?;
        if self.begun == 1 {
            self.begin_second(own);
            return Ok(());
        }
        self.begin_first(own);
        Ok(())
    }

    // Begins the first branch, with its source.
    fn begin_first(&mut self, own: CircuitDraft)
        requires { self.old.begun ≡ 0 }
        ensures { (before : List Statement) (p : Part) → Reflects self.old before → self.old.termination ≡ Some p.value → IsSourceAlone own p
            → Reflects self.new (before ++ branch p ∷ []) }
    {
        self.only_rates = false;
        self.begun += 1;
        self.own = own;
    }

    // Begins the second branch, with its source.
    fn begin_second(&mut self, own: CircuitDraft)
        requires { self.old.begun ≡ 1 }
        ensures { (before : List Statement) (p : Part) → Reflects self.old before → self.old.termination ≡ Some p.value → IsSourceAlone own p
            → Reflects self.new (before ++ branch p ∷ []) }
    {
        self.only_rates = false;
        self.begun += 1;
        self.first = Some(mem::replace(&mut self.own, own));
    }
}
