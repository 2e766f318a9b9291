//! The significant digits of a decimal number: those from the first to the last that is not 0.

ghost use Rattle.std.specs.Prelude.{◌≡◌, ◌+◌, ◌^◌, ◌<◌, ◌≤◌, ◌∷◌, ◌++◌, [], ℕ, List, MatchOption};
ghost use Rattle.wdf_text.specs.Significance.{IsSignificant};

// The significant digits among those read so far: their number, how many they are, and how many
// zeros stand behind them.
#[derive(Clone, Copy)]
pub(crate) struct Significant {
    pub(crate) digits: u64,
    pub(crate) count: u32,
    pub(crate) zeros: u32,
}

impl Significant {
    // One digit more; None where more than 9 are significant then.
    pub(crate) fn with(self, digit: u8) -> Option<Significant>
        requires digit { digit < 10 }
        requires zeros { self.zeros ≤ 40 }
        requires few { self.count ≤ 9 }
        requires small { self.digits < 10 ^ self.count }
        ensures { (ds : List ℕ) → IsSignificant ds self.digits self.count self.zeros
            → MatchOption result ((0 < digit) × (9 < self.count + self.zeros + 1)) (λ s. IsSignificant (ds ++ digit ∷ []) s.digits s.count s.zeros) }
    {
        if digit == 0 {
            let zeros = if self.digits == 0 { 0 } else { self.zeros + 1 };
            return Some(Significant {
                digits: self.digits,
                count: self.count,
                zeros,
            });
        }
        let count = self.count + self.zeros + 1;
        if count > 9 {
            return None;
        }
        Some(Significant {
            digits: self.digits * 10u64.pow(self.zeros + 1) + u64::from(digit),
            count,
            zeros: 0,
        })
    }
}
