// Blocks of a lattice: the load wave at branch B's source less that at branch A's.
ghost use Rattle.std.specs.Prelude.{◌≡◌, ℕ, ◌+◌, ◌*◌, ◌-ℤ◌, ◌<◌, ◌≤◌, ◌^◌, pos, length, slice_index_or, unsigned_abs, All, IfOk};
ghost use Rattle.wdf_loop.specs.Engines.{runs_of};
ghost use Rattle.wdf_lattice.specs.declared.engines.Engines.TheVariants.{Two};
ghost use Rattle.wdf_lattice.specs.Runners.{DriveAll, IsBlock};
ghost use Rattle.wdf_lattice.specs.RunSides.{AreAlike, AreSmall, GoOn, IsRoomFor, networks_by};

use crate::Networks;
use crate::side_runs::SideRuns;
use std::alloc::{AllocError, Global};

/// The most frames of a piece of a block.
pub(crate) const PIECE: usize = 256;

/// Room for the load waves of branch A in a piece of a block of so many runs; a ladder wants none.
///
/// # Errors
///
/// Where no memory is left.
pub(crate) fn room_of(
    alloc: Global,
    networks: &Networks,
    runs: usize,
) -> Result<Vec<i64>, AllocError>
    requires { runs ≤ 8 }
    ensures { IfOk result (λ v. IsRoomFor networks.now runs v.items) }
{
    match networks {
        Networks::Ladder(_) => Ok(Vec::new(alloc)),
        Networks::Lattice { .. } => vec![in alloc; 0; PIECE * runs],
    }
}

// The difference of two waves that keep their words.
fn difference(second: i64, first: i64) -> i64
    requires second { unsigned_abs second ≤ 2 ^ 60 }
    requires first { unsigned_abs first ≤ 2 ^ 60 }
    ensures { result ≡ second -ℤ first }
{
    second - first
}

// Takes each wave of `less` from the wave at its place.
fn subtract(waves: &mut [i64], less: &[i64])
    requires each { length less.now ≡ length waves.old }
    requires waves { AreSmall waves.old }
    requires less { AreSmall less.now }
    ensures { (i : ℕ) → i < length waves.old → slice_index_or waves.new i (pos 0) ≡ slice_index_or waves.old i (pos 0) -ℤ slice_index_or less.now i (pos 0) }
{
    for i in 0..waves.len() {
        waves[i] = difference(waves[i], less[i]);
    }
}

// Makes the next frames of both branches, for whose load waves there is room.
fn piece_of_branches(
    first: &mut SideRuns,
    second: &mut SideRuns,
    room: &mut [i64],
    input: &[i64],
    output: &mut [i64],
)
    requires some { 1 ≤ runs_of first.old.engine }
    requires alike { AreAlike (Two first.old second.old) }
    requires driven { DriveAll (networks_by (Two first.old second.old)) (runs_of first.old.engine) }
    requires room { length output.old ≤ length room.old }
    requires frames { IsBlock (runs_of first.old.engine) 1 first.old.engine.done first.old.engine.plan.frames input.now output.old }
    requires amplitude { All (λ s. unsigned_abs s ≤ first.old.engine.plan.amp) input.now }
    ensures { (count : ℕ) → length output.old ≡ count * runs_of first.old.engine → GoOn count input.now output.new (Two first.old second.old) (Two first.new second.new) }
{
    let less = &mut room[..output.len()];
    first.block(input, less);
    second.block(input, output);
    subtract(output, less);
}

/// Makes the next frames of both branches, in pieces that there is room for.
pub(crate) fn block_of_branches(
    first: &mut SideRuns,
    second: &mut SideRuns,
    runs: usize,
    room: &mut [i64],
    input: &[i64],
    output: &mut [i64],
)
    requires some { 1 ≤ runs }
    requires runs { runs ≡ runs_of first.old.engine }
    requires alike { AreAlike (Two first.old second.old) }
    requires driven { DriveAll (networks_by (Two first.old second.old)) runs }
    requires room { length room.old ≡ 256 * runs }
    requires frames { IsBlock runs 1 first.old.engine.done first.old.engine.plan.frames input.now output.old }
    requires amplitude { All (λ s. unsigned_abs s ≤ first.old.engine.plan.amp) input.now }
    ensures { (count : ℕ) → length output.old ≡ count * runs → GoOn count input.now output.new (Two first.old second.old) (Two first.new second.new) }
{
    let count = output.len() / runs;
    let mut made = 0;
    while made < count {
        let end = made + PIECE.min(count - made);
        piece_of_branches(
            first,
            second,
            room,
            &input[made * runs..end * runs],
            &mut output[made * runs..end * runs],
        );
        made = end;
    }
}
