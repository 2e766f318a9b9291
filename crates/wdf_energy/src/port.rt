ghost use Rattle.std.specs.Prelude.{◌≡◌, ◌<◌, ◌^◌};
ghost use Rattle.wdf_energy.specs.Totals.{part};

// The units of a whole ratio, 2^40.
const ONE: u128 = 1 << 40;

// The port of an element: the element's number, and the number that bounds the port's words, in
// units of 2^-40.
#[derive(Clone, Copy)]
pub(crate) struct Port {
    pub(crate) elem: u32,
    pub(crate) ratio: u64,
}

impl Port {
    // The part of a total that a sum of squares at this port is: the sum times 2^40 by the port's
    // number, rounded down. Whole multiples of the number are counted first, so that no product
    // exceeds 128 bits.
    #[tactic(auto, using(crate::proofs::PartNumbers::part_split))]
    pub(crate) fn part(self, squares: u128) -> u128
        requires some { 0 < self.ratio }
        requires fits { part squares self.ratio < 2 ^ 128 }
        ensures { result ≡ part squares self.ratio }
    {
        let number = u128::from(self.ratio);
        squares / number * ONE + squares % number * ONE / number
    }
}
