ghost use Rattle.std.specs.Prelude.{◌≡◌, ◌≤◌};
ghost use Rattle.wdf_netlist.specs.Netlists.{IsForm, IsNetlist};

use crate::{Form, MAX_RATE};
use std::marker::Model;

/// A netlist: a rate, in frames per second, and its circuits.
///
/// It keeps: a rate in 1..=1,000,000; in a ladder a load and no element named `@`; in a lattice
/// two branches, in each of which element 0 is the only source, named `@`, from node 0 to node 1,
/// both with the same value, whose outlet is the source and whose root is not named as element 0.
#[derive(Drop)]
pub struct Netlist {
    rate: u32,
    form: Form,
}

impl Model for Netlist {
    ghost use Rattle.wdf_netlist.specs.Netlists.{IsNetlist, NetlistValue};

    ghost Value = { NetlistValue };

    ghost view = { λ n. record { rate = n.rate; form = n.form } };

    ghost invariant = { λ n. IsNetlist (record { rate = n.rate; form = n.form }) };
}

impl Netlist {
    /// The netlist with this rate and these circuits.
    pub fn new(rate: u32, form: Form) -> Netlist
        requires slowest { 1 ≤ rate }
        requires fastest { rate ≤ MAX_RATE }
        requires form { IsForm form }
        ensures { result ≡ record { rate = rate; form = form } }
    {
        match &form {
            Form::Ladder(circuit) => circuit.rules(),
            Form::Lattice { a, b } => {
                a.rules();
                b.rules();
            }
        }
        Netlist { rate, form }
    }

    /// The rate, in frames per second.
    pub fn rate(&self) -> u32
        ensures value { result ≡ self.now.rate }
        ensures slowest { 1 ≤ result }
        ensures fastest { result ≤ MAX_RATE }
    {
        self.rate
    }

    /// The circuits.
    pub fn form(&self) -> &Form
        ensures { result.now ≡ self.now.form }
    {
        &self.form
    }

    /// What the type of every netlist keeps.
    pub fn rules(&self)
        ensures { IsNetlist self.now }
    {
        let _ = &self.rate;
    }
}
