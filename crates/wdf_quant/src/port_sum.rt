ghost use Rattle.std.specs.Prelude.{◌≡◌, ◌+◌, ◌^◌, ◌<◌, ◌≤◌, IfOk, IfErr};

use crate::wide_port::WidePort;

// The widest ratio, and the widest sum.
pub(crate) const LIMIT: u128 = 1 << 62;

// A port's ratio seen from one source, and the sum of those of the sources so far, in units of
// 2^-40.
#[derive(Clone, Copy)]
pub(crate) struct PortSum {
    pub(crate) ratio: u64,
    pub(crate) sum: u128,
}

impl PortSum {
    pub(crate) fn zero() -> PortSum
        ensures ratio { result.ratio ≡ 0 }
        ensures sum { result.sum ≡ 0 }
    {
        PortSum { ratio: 0, sum: 0 }
    }

    // Takes the ratio `p`, if it is not too wide. The port is named by `element`.
    pub(crate) fn take_ratio(&mut self, element: u32, p: u128) -> Result<(), WidePort>
        ensures sum { self.new.sum ≡ self.old.sum }
        ensures taken { IfOk result (λ _. (self.new.ratio ≡ p) × (p ≤ 2 ^ 62)) }
        ensures wide { IfErr result (λ w. (2 ^ 62 < p) × (w.element ≡ element) × (w.need ≡ p)) }
    {
        if p > LIMIT {
            return Err(WidePort { element, need: p });
        }
        self.ratio = p as u64;
        Ok(())
    }

    // Adds the ratio to the sum.
    pub(crate) fn gather(&mut self)
        requires { self.old.sum < 2 ^ 127 }
        ensures ratio { self.new.ratio ≡ self.old.ratio }
        ensures sum { self.new.sum ≡ self.old.sum + self.old.ratio }
        ensures growth { self.new.sum < self.old.sum + 2 ^ 64 }
    {
        self.sum += u128::from(self.ratio);
    }
}
