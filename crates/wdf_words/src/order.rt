ghost use Rattle.std.specs.Prelude.{◌≡◌, IsTrue};
ghost use Rattle.wdf_bounds.specs.Plans.{is_sample_width};
ghost use Rattle.wdf_words.specs.Orders.{HasRanges, plan_for};

use crate::Command;
use wdf_bounds::Plan;

/// What the words of the command line ask for.
///
/// A field whose operand is not given, or is none of the command's, holds what is taken then, and 0
/// or `None` where nothing is.
#[derive(Clone, Copy, Debug, PartialEq, Eq)]
pub struct Order {
    pub command: Command,
    /// The word that names the netlist, counted from 0.
    pub net: Option<usize>,
    /// The word that names the certificate.
    pub cert: Option<usize>,
    /// The width of the multipliers, in bits.
    pub k: u8,
    /// How many bits a sample gains as it enters.
    pub guard: Option<u8>,
    /// How many bits more than those an output sample loses.
    pub shift: u8,
    /// The most frames.
    pub frames: u32,
    /// The greatest magnitude of a sample.
    pub amp: Option<u32>,
    /// The width of a sample, in bits, where no wave says it.
    pub bits: u8,
    /// What the random numbers of `soak` begin with.
    pub seed: u64,
    /// How many reactances the ladder of `soak` has.
    pub order: u8,
}

impl Order {
    /// The plan of a run over samples of `bits` bits: of 4 guard bits, or none at 32 bits, where the
    /// words give none, and of full scale where they give no `amp` or a larger one.
    pub fn plan(&self, bits: u8) -> Plan
        requires ranges { HasRanges self.now }
        requires bits { IsTrue (is_sample_width bits) }
        ensures { result ≡ plan_for self.now bits }
    {
        let full_scale = 1 << (bits - 1);
        let guard = self.guard.unwrap_or(if bits == 32 { 0 } else { 4 });
        let amp = self.amp.unwrap_or(full_scale).min(full_scale);
        Plan::new(self.k, guard, self.shift, self.frames, amp, bits).unwrap()
    }
}
