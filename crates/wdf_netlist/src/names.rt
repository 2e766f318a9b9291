//! Names in the order in which they first came.

ghost use Rattle.std.specs.Prelude.{◌≡◌, ◌≤◌, [], OnOk, bytes_eq, length, position};
ghost use Rattle.std.specs.List.{list_any, position_or_len};
ghost use Rattle.wdf_netlist.specs.Circuits.{with_new};

use indexmap::IndexSet;
use std::alloc::{AllocError, Global};
use std::marker::Model;
use wdf_text::Name;

/// Distinct names, each with its number: how many came before it. Contracts see their list.
#[derive(Drop)]
pub struct Names {
    set: IndexSet<Name>,
}

impl Model for Names {
    ghost use Rattle.std.specs.Prelude.{List, ℕ};

    ghost Value = { List (List ℕ) };

    ghost view = { λ n. n.set.keys };
}

impl Names {
    pub fn new(alloc: Global) -> Names
        ensures { result ≡ [] }
    {
        Names {
            set: IndexSet::new(alloc),
        }
    }

    /// Whether the name is there.
    pub fn has(&self, name: &Name) -> bool
        ensures { result ≡ list_any (bytes_eq name.now) self.now }
    {
        self.set.contains(name)
    }

    /// The number of the name; None where it is not there.
    pub fn number(&self, name: &Name) -> Option<usize>
        ensures { result ≡ position (bytes_eq name.now) self.now }
    {
        self.set.get_index_of(name)
    }

    /// The number of the name, or how many names there are where it is not there.
    #[tactic(auto, using(crate::proofs::NameLemmas::place_within))]
    pub fn place(&self, name: &Name) -> usize
        ensures place { result ≡ position_or_len (bytes_eq name.now) self.now }
        ensures within { result ≤ length self.now }
    {
        match self.number(name) {
            Some(number) => number,
            None => self.set.len(),
        }
    }

    /// Adds the name, if it is not there yet.
    pub fn insert(&mut self, name: Name) -> Result<(), AllocError>
        ensures { OnOk result (self.new ≡ with_new bytes_eq self.old name) }
    {
        self.set.insert(name)?;
        Ok(())
    }

    /// The names, by their numbers.
    pub fn as_slice(&self) -> &[Name]
        ensures { result.now ≡ self.now }
    {
        self.set.as_slice()
    }
}

/// Whether two names are the same.
pub fn same(one: &Name, other: &Name) -> bool
    ensures { result ≡ bytes_eq one.now other.now }
{
    one.as_bytes() == other.as_bytes()
}
