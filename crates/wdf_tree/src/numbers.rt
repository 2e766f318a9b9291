// The numbers of a network's sources and reactances as lists, and what is read and written by them.
ghost use Rattle.std.specs.Prelude.{◌≡◌, ℕ, ◌≤◌, ◌<◌, ◌^◌, length, map, take, unsigned_abs, All, IfOk};
ghost use Rattle.wdf_law.specs.Network.{source_numbers, reactances};
ghost use Rattle.wdf_law.specs.OutputRule.{scaled_up};
ghost use Rattle.wdf_tree.specs.Numbers.{fed};
ghost use Rattle.wdf_tree.specs.Places.{at_place};

use std::alloc::{AllocError, Global};
use wdf_algebra::times;
use wdf_law::Net;

/// The sources, source 0 first.
pub(crate) fn source_list(alloc: Global, net: &Net) -> Result<Vec<u32>, AllocError>
    ensures { IfOk result (λ v. v.items ≡ source_numbers net.now) }
{
    let mut numbers = Vec::new(alloc);
    for j in 0..net.source_count() {
        let Some(number) = net.source_at(j) else {
            unreachable!()
        };
        numbers.push(number)?;
    }
    Ok(numbers)
}

/// The capacitors and inductors, in netlist order.
pub(crate) fn reactance_list(alloc: Global, net: &Net) -> Result<Vec<u32>, AllocError>
    ensures { IfOk result (λ v. v.items ≡ reactances net.now) }
{
    (0..net.element_count() as u32)
        .filter(|&number| net.has_reactance(number))
        .collect(alloc)
}

// A sample with `guard` more bits.
#[tactic(auto, using(crate::proofs::Sizes::shifted_fits))]
fn scaled(sample: i64, guard: u8) -> i64
    requires guard { guard ≤ 16 }
    requires amplitude { unsigned_abs sample ≤ 2 ^ 31 }
    ensures { result ≡ scaled_up guard sample }
{
    times(sample, i64::from(1u32 << guard))
}

/// Writes each source's sample, with `guard` more bits, at the source's number.
pub(crate) fn feed(sources: &[u32], samples: &[i64], guard: u8, inputs: &mut [i64; 128])
    requires each { length samples.now ≡ length sources.now }
    requires placed { All (λ (i : ℕ). i < 128) sources.now }
    requires guard { guard ≤ 16 }
    requires amplitude { All (λ s. unsigned_abs s ≤ 2 ^ 31) samples.now }
    ensures { inputs.new ≡ fed guard sources.now samples.now inputs.old }
{
    for j in 0..sources.len() {
        inputs[sources[j] as usize] = scaled(samples[j], guard);
    }
}

/// Gathers what stands at these numbers.
pub(crate) fn gather(numbers: &[u32], downs: &[i64; 128], state: &mut [i64; 128])
    requires few { length numbers.now ≤ 128 }
    requires placed { All (λ (i : ℕ). i < 128) numbers.now }
    ensures { take (length numbers.now) state.new ≡ map (at_place downs.now) numbers.now }
{
    for j in 0..numbers.len() {
        state[j] = downs[numbers[j] as usize];
    }
}
