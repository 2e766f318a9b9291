ghost use Rattle.std.specs.Prelude.{◌≡◌, ◌≤◌, IfSome, length, slice_get};
ghost use Rattle.wdf_netlist.specs.Circuits.{IsCircuit, IsSourceAt, sources};

use crate::{Element, MAX_ELEMENTS, RootChoice};
use std::marker::Model;
use wdf_law::{MAX_SOURCES, Outlet};
use wdf_text::Name;

/// A circuit of resistors, capacitors, inductors and sources between nodes.
///
/// An element's and a node's number is its place. It keeps: 2 to 128 elements, at most 64
/// reactances, 1 to 8 sources; names distinct among the elements and among the nodes, and no node
/// named `@`; each element between two different nodes that are there; values in range; a load that
/// is a resistor; a root that is there; and nodes numbered in the order in which the elements first
/// mention them.
#[derive(Drop)]
pub struct Circuit {
    elements: Vec<Element>,
    nodes: Vec<Name>,
    outlet: Outlet,
    root: RootChoice,
}

impl Model for Circuit {
    ghost use Rattle.wdf_netlist.specs.Circuits.{CircuitValue, IsCircuit};

    ghost Value = { CircuitValue };

    ghost view = { λ c. record { elements = c.elements.items; nodes = c.nodes.items; outlet = c.outlet; root = c.root } };

    ghost invariant = { λ c. IsCircuit (record { elements = c.elements.items; nodes = c.nodes.items; outlet = c.outlet; root = c.root }) };
}

// The number of the source behind so many others.
fn source_behind(elements: &[Element], skip: usize) -> Option<u32>
    requires { length elements.now ≤ MAX_ELEMENTS }
    ensures { result ≡ slice_get (sources elements.now) skip }
{
    let mut left = skip;
    for (number, element) in elements.iter().enumerate() {
        if element.kind.is_source() {
            if left == 0 {
                return Some(number as u32);
            }
            left -= 1;
        }
    }
    None
}

impl Circuit {
    /// The circuit of these elements and node names.
    pub fn new(
        elements: Vec<Element>,
        nodes: Vec<Name>,
        outlet: Outlet,
        root: RootChoice,
    ) -> Circuit
        requires { IsCircuit (record { elements = elements.items; nodes = nodes.items; outlet = outlet; root = root }) }
        ensures { result ≡ record { elements = elements.items; nodes = nodes.items; outlet = outlet; root = root } }
    {
        Circuit {
            elements,
            nodes,
            outlet,
            root,
        }
    }

    /// The elements, by their numbers.
    pub fn elements(&self) -> &[Element]
        ensures elements { result.now ≡ self.now.elements }
        ensures fewest { 2 ≤ length result.now }
        ensures most { length result.now ≤ MAX_ELEMENTS }
    {
        &self.elements
    }

    /// The names of the nodes, by their numbers.
    pub fn nodes(&self) -> &[Name]
        ensures { result.now ≡ self.now.nodes }
    {
        &self.nodes
    }

    /// The number of the first source.
    #[tactic(auto, using(crate::proofs::SourceLemmas::first_source))]
    pub fn source(&self) -> u32
        ensures first { slice_get (sources self.now.elements) 0 ≡ Some result }
        ensures source { IsSourceAt self.now.elements result }
    {
        self.rules();
        self.source_at(0).unwrap()
    }

    /// How many sources there are.
    #[tactic(auto, using(crate::proofs::SourceLemmas::length_numbers))]
    pub fn source_count(&self) -> usize
        ensures count { result ≡ length (sources self.now.elements) }
        ensures fewest { 1 ≤ result }
        ensures most { result ≤ MAX_SOURCES }
    {
        self.elements
            .iter()
            .filter(|element| element.kind.is_source())
            .count()
    }

    /// The number of a source, where the sources are counted from 0 in the order of the elements.
    #[tactic(auto, using(crate::proofs::SourceLemmas::source_at))]
    pub fn source_at(&self, i: usize) -> Option<u32>
        ensures at { result ≡ slice_get (sources self.now.elements) i }
        ensures source { IfSome result (IsSourceAt self.now.elements) }
    {
        source_behind(&self.elements, i)
    }

    /// The element whose down wave is the output.
    pub fn outlet(&self) -> Outlet
        ensures { result ≡ self.now.outlet }
    {
        self.outlet
    }

    /// Where the root is to stand.
    pub fn root(&self) -> RootChoice
        ensures { result ≡ self.now.root }
    {
        self.root
    }

    /// What the type of every circuit keeps.
    pub fn rules(&self)
        ensures { IsCircuit self.now }
    {
        let _ = &self.root;
    }
}
