//! The netlist that all lines of a text give together.

ghost use Rattle.std.specs.Prelude.{◌≡◌, ◌≤◌, IfOk, IfSome, IsSome, List, None, Some, length, option_map};
ghost use Rattle.wdf_text.specs.DecimalNumber.{DecimalNumber};
ghost use Rattle.wdf_netlist.specs.Drafts.{IsWholeDraft, KeepsCircuit, KeepsDraft, Reflects};
ghost use Rattle.wdf_netlist.specs.Gathering.{Gives, GivesOrFails, lattice_of};
ghost use Rattle.wdf_netlist.specs.Kept.{AreOfForm};
ghost use Rattle.wdf_netlist.specs.Netlists.{IsBranch};
ghost use Rattle.wdf_netlist.specs.Statements.{Statement};
ghost use Rattle.wdf_netlist.specs.TextRules.{absent, branch_of, fault_of_name, ladder_of, load_number, netlist_said, root_choice};

use crate::circuit_draft::CircuitDraft;
use crate::draft::Draft;
use crate::mention::Mention;
use crate::numbering::circuit_of;
use crate::root_line::RootLine;
use crate::{Circuit, Form, MAX_RATE, NetFault, NetKind, Netlist, ReadError, RootChoice};
use std::alloc::Global;
use wdf_law::Outlet;

// A fault at a name.
fn fault_of_name(kind: NetKind, mention: Mention) -> NetFault
    ensures { result ≡ fault_of_name kind mention }
{
    NetFault {
        kind,
        line: mention.line,
        column: mention.column,
        name: Some(mention.name),
    }
}

// A fault about what is absent from the text.
fn absent(kind: NetKind) -> NetFault
    ensures { result ≡ absent kind }
{
    NetFault {
        kind,
        line: 0,
        column: 0,
        name: None,
    }
}

// The number of the load, which has to be a resistor.
fn load_number(own: &CircuitDraft, load: Mention) -> Result<u32, NetFault>
    requires { KeepsCircuit own.now }
    ensures { Gives result (load_number own.now.parts.items load) }
{
    let Some(number) = own.names.number(&load.name) else {
        return Err(fault_of_name(NetKind::LoadUnknown, load));
    };
    if !own.is_resistor_at(number) {
        return Err(fault_of_name(NetKind::LoadNotResistor, load));
    }
    Ok(number as u32)
}

// The choice of root of a circuit's lines.
fn root_choice(own: &CircuitDraft) -> Result<RootChoice, NetFault>
    requires { KeepsCircuit own.now }
    ensures { Gives result (root_choice own.now.parts.items own.now.root) }
{
    match own.root {
        None => Ok(RootChoice::Source),
        Some(RootLine::Shallow) => Ok(RootChoice::Shallow),
        Some(RootLine::At(mention)) => match own.names.number(&mention.name) {
            Some(number) => Ok(RootChoice::Element(number as u32)),
            None => Err(fault_of_name(NetKind::RootUnknown, mention)),
        },
    }
}

// A ladder of this rate, load and circuit.
#[tactic(auto, using(crate::proofs::CircuitLemmas::ladder_circuit, crate::proofs::CircuitLemmas::ladder_form))]
fn ladder(
    alloc: Global,
    rate: Option<u32>,
    load: Option<Mention>,
    own: &CircuitDraft,
) -> Result<Netlist, ReadError>
    requires own { KeepsCircuit own.now }
    requires form { AreOfForm None own.now.parts.items }
    requires rate { IfSome rate (λ n. (1 ≤ n) × (n ≤ MAX_RATE)) }
    ensures { GivesOrFails result (ladder_of rate load own.now.parts.items own.now.root) }
{
    let Some(rate) = rate else {
        return Err(ReadError::Fault(absent(NetKind::NoRate)));
    };
    if !own.has_source() {
        return Err(ReadError::Fault(absent(NetKind::NoSource)));
    }
    let Some(load) = load else {
        return Err(ReadError::Fault(absent(NetKind::NoLoad)));
    };
    let number = load_number(own, load)?;
    let root = root_choice(own)?;
    let circuit = circuit_of(alloc, own, Outlet::Load(number), root)?;
    Ok(Netlist::new(rate, Form::Ladder(circuit)))
}

// A branch of a lattice.
#[tactic(auto, using(crate::proofs::CircuitLemmas::branch_circuit, crate::proofs::CircuitLemmas::branch_form))]
fn branch(alloc: Global, own: &CircuitDraft) -> Result<Circuit, ReadError>
    requires whole { (v : DecimalNumber) × IsWholeDraft (Some v) own.now }
    requires two { 2 ≤ length own.now.parts.items }
    ensures circuit { GivesOrFails result (branch_of own.now.parts.items own.now.root) }
    ensures form { (v : DecimalNumber) → IsWholeDraft (Some v) own.now → IfOk result (IsBranch v) }
{
    let root = root_choice(own)?;
    let circuit = circuit_of(alloc, own, Outlet::Source, root)?;
    Ok(circuit)
}

// A lattice of this rate and these branches.
fn lattice(
    alloc: Global,
    rate: Option<u32>,
    first: &Option<CircuitDraft>,
    own: &CircuitDraft,
) -> Result<Netlist, ReadError>
    requires rate { IfSome rate (λ n. (1 ≤ n) × (n ≤ MAX_RATE)) }
    requires whole { IsSome first.now → (v : DecimalNumber) × (IfSome first.now (IsWholeDraft (Some v)) × IsWholeDraft (Some v) own.now) }
    ensures { GivesOrFails result (lattice_of rate first.now own.now) }
{
    let Some(rate) = rate else {
        return Err(ReadError::Fault(absent(NetKind::NoRate)));
    };
    let Some(first) = first else {
        return Err(ReadError::Fault(absent(NetKind::NoBranch)));
    };
    if first.parts.len() < 2 || own.parts.len() < 2 {
        return Err(ReadError::Fault(absent(NetKind::EmptyBranch)));
    }
    let a = branch(alloc, first)?;
    let b = branch(alloc, own)?;
    Ok(Netlist::new(rate, Form::Lattice { a, b }))
}

/// The netlist that all lines give together.
pub fn netlist(alloc: Global, draft: &Draft) -> Result<Netlist, ReadError>
    requires { KeepsDraft draft.now }
    ensures { (ss : List Statement) → Reflects draft.now ss → GivesOrFails result (netlist_said ss) }
{
    if draft.termination.is_some() {
        return lattice(alloc, draft.rate, &draft.first, &draft.own);
    }
    ladder(alloc, draft.rate, draft.load, &draft.own)
}
