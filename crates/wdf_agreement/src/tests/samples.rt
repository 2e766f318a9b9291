//! Noise of 16 bits.

ghost use Rattle.std.specs.Prelude.{◌≤◌, ℤ, unsigned_abs, All};

use std::alloc::{AllocError, Global};

/// Samples of at most 32,768 in magnitude.
#[derive(Drop)]
pub(super) struct Samples {
    values: Vec<i64>,
    ghost small: { All (λ (s : ℤ). unsigned_abs s ≤ 32768) values.items },
}

impl Samples {
    /// None yet.
    pub(super) fn new(alloc: Global) -> Samples {
        Samples {
            values: Vec::new(alloc),
        }
    }

    /// Adds one.
    pub(super) fn push(&mut self, sample: i64) -> Result<(), AllocError>
        requires { unsigned_abs sample ≤ 32768 }
    {
        self.values.push(sample)?;
        Ok(())
    }

    pub(super) fn values(&self) -> &[i64]
        ensures { All (λ (s : ℤ). unsigned_abs s ≤ 32768) result.now }
    {
        &self.values
    }
}

/// The next sample of a linear congruential generator.
pub(super) fn next(word: &mut u32) -> i64
    ensures { unsigned_abs result ≤ 32768 }
{
    *word = word.wrapping_mul(1_664_525).wrapping_add(1_013_904_223);
    i64::from(*word >> 16) - 32_768
}
