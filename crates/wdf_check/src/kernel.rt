ghost use Rattle.std.specs.Prelude.{◌≡◌};

use std::marker::Model;

/// A vector of numbers that contracts see as a list: what tells how a column of the observability
/// matrix depends on the columns before it.
#[derive(Drop)]
pub struct Kernel {
    list: Vec<u64>,
}

impl Model for Kernel {
    ghost use Rattle.std.specs.Prelude.{ℕ, List};

    ghost Value = { List ℕ };

    ghost view = { λ k. k.list.items };
}

impl Kernel {
    /// The vector of these numbers.
    pub fn new(list: Vec<u64>) -> Kernel
        ensures { result ≡ list.items }
    {
        Kernel { list }
    }

    /// Its numbers.
    pub fn list(&self) -> &[u64]
        ensures { result.now ≡ self.now }
    {
        &self.list
    }
}
