// What a ledger notes of the frames of several runs.
ghost use Rattle.std.specs.Prelude.{◌≡◌, ℕ, ℤ, ◌+◌, ◌*◌, ◌<◌, ◌≤◌, ◌^◌, pos, length, map, slice_index_or};
ghost use Rattle.wdf_law.specs.Network.{absorbing_numbers, elements, source_numbers};
ghost use Rattle.wdf_energy.specs.Accounts.{account_at};
ghost use Rattle.wdf_energy.specs.Blocks.{AreLast, HasRoomFor, HaveSent, NotesOver};
ghost use Rattle.wdf_loop.specs.Parts.{AreWithin, sent_last};
ghost use Rattle.wdf_loop.specs.RunAccounts.{AreNoted, HaveRoom, KeepsAccounts, values_of};

use crate::part::Part;
use crate::stage_row::RunRow;
use wdf_energy::Ledger;

// What these parts were sent last in the run `c`.
fn sent_last<const C: usize, R: RunRow<C>>(parts: &[Part], cells: &[R], c: usize, downs: &mut [i64])
    requires runs { C ≤ 8 }
    requires run { c < C }
    requires inside { AreWithin (length cells.now) parts.now }
    requires each { length downs.old ≡ length parts.now }
    ensures { (i : ℕ) → i < length parts.now → slice_index_or downs.new i (pos 0) ≡ sent_last parts.now (map R.cells cells.now) c i }
{
    for i in 0..parts.len() {
        let part = parts[i];
        downs[i] = cells[part.stage as usize].cell(c).sent(part);
    }
}

// Notes so many frames of the run `c` in the account of the channel.
fn note_run<const C: usize, R: RunRow<C>>(
    every: &[Part],
    cells: &[R],
    channel: usize,
    c: usize,
    count: usize,
    values: &[[i64; C]],
    waves: &[[i64; C]],
    ledger: &mut Ledger,
)
    requires runs { C ≤ 8 }
    requires run { c < C }
    requires some { 1 ≤ count }
    requires channel { channel < length ledger.old.accounts }
    requires few { length every.now ≤ 128 }
    requires each { length every.now ≡ length (elements ledger.old.net) }
    requires inside { AreWithin (length cells.now) every.now }
    requires values { length values.now ≡ count * length (source_numbers ledger.old.net) }
    requires waves { length waves.now ≡ count * length (absorbing_numbers ledger.old.net) }
    requires room { HasRoomFor ledger.old.net count (values_of ledger.old values.now c) waves.now c (account_at ledger.old channel) }
    ensures accounts { KeepsAccounts 1 channel ledger.old ledger.new }
    ensures notes { (sent : ℕ → ℕ → ℤ) → HaveSent ledger.old.net count sent waves.now c → AreLast ledger.old.net count sent (sent_last every.now (map R.cells cells.now) c)
        → NotesOver ledger.old.net count (values_of ledger.old values.now c) sent (account_at ledger.old channel) (account_at ledger.new channel) }
{
    let mut room = [0; 128];
    let downs = &mut room[..every.len()];
    sent_last::<C, R>(every, cells, c, downs);
    ledger.note_block::<C>(channel, c, count, values, waves, downs);
}

/// Notes so many frames of the runs in a ledger's accounts from `first` on: `values` has a row for
/// each source of each frame, `waves` one for each element that absorbs, and the cells have the
/// waves of the last frame. `every` are the parts that are elements, by their numbers.
pub(crate) fn note_runs<const C: usize, R: RunRow<C>>(
    every: &[Part],
    cells: &[R],
    first: usize,
    count: usize,
    values: &[[i64; C]],
    waves: &[[i64; C]],
    ledger: &mut Ledger,
)
    requires runs { C ≤ 8 }
    requires some { 1 ≤ count }
    requires places { first + C < 2 ^ 64 }
    requires accounts { first + C ≤ length ledger.old.accounts }
    requires few { length every.now ≤ 128 }
    requires each { length every.now ≡ length (elements ledger.old.net) }
    requires inside { AreWithin (length cells.now) every.now }
    requires values { length values.now ≡ count * length (source_numbers ledger.old.net) }
    requires waves { length waves.now ≡ count * length (absorbing_numbers ledger.old.net) }
    requires room { HaveRoom C first count values.now waves.now ledger.old }
    ensures accounts { KeepsAccounts C first ledger.old ledger.new }
    ensures notes { AreNoted C first count every.now (map R.cells cells.now) values.now waves.now ledger.old ledger.new }
{
    for c in 0..C {
        note_run::<C, R>(every, cells, first + c, c, count, values, waves, ledger);
    }
}
