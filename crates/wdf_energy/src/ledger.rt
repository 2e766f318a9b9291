ghost use Rattle.std.specs.Prelude.{◌≡◌, ◌≢◌, ℕ, ℤ, ◌*◌, ◌<◌, ◌≤◌, length, map, IfOk, replicate};
ghost use Rattle.wdf_law.specs.Network.{absorbing_numbers, elements, numbers_with, source_numbers};
ghost use Rattle.wdf_quant.specs.PortBound.{HasLeafNumbers};
ghost use Rattle.wdf_energy.specs.Accounts.{FitTotals, HasRoom, account_at, noted, noted_in, opened, totals_of, wave_at};
ghost use Rattle.wdf_energy.specs.Blocks.{AreLast, HasRoomFor, HaveSent, NotesOver, frame_column};
ghost use Rattle.wdf_energy.specs.PortLists.{AreWalked, has_of, ports_at};

use crate::Totals;
use crate::account::Account;
use crate::group::Group;
use crate::port::Port;
use std::alloc::{AllocError, Global};
use std::marker::Model;
use wdf_law::Net;
use wdf_quant::Ratios;

/// Where the energy of the runs of a network went: for each channel the sums of the squares of what
/// the sources sent in and of the waves that the resistors and the sources were sent, and the last
/// down waves of the capacitors and inductors.
#[derive(Drop)]
pub struct Ledger {
    net: Net,
    absorbing: Vec<Port>,
    reactive: Vec<Port>,
    accounts: Vec<Account>,
}

impl Model for Ledger {
    ghost use Rattle.wdf_energy.specs.Accounts.{LedgerOf, ledger_code};

    ghost Value = { LedgerOf };

    ghost coded = { ledger_code };

    ghost use Rattle.std.specs.Prelude.{map};
    ghost use Rattle.wdf_energy.specs.PortLists.{IsLedger, shown};

    ghost view = { λ l. record { net = l.net; accounts = map (shown l.absorbing.items l.reactive.items) l.accounts.items } };

    ghost invariant = { λ l. IsLedger l.net l.absorbing.items l.reactive.items };
}

// The ports of a group's elements, in netlist order.
fn ports_of(
    alloc: Global,
    net: &Net,
    ratios: &Ratios,
    group: Group,
) -> Result<Vec<Port>, AllocError>
    requires { HasLeafNumbers net.now ratios.now }
    ensures ports { IfOk result (λ v. v.items ≡ ports_at net.now (numbers_with (has_of group) (elements net.now))) }
    ensures walked { IfOk result (λ v. AreWalked (length (elements net.now)) v.items) }
{
    wdf_law::laws::ports(net);
    wdf_quant::laws::sources_covered(net);
    let mut ports = Vec::new(alloc);
    for elem in 0..net.element_count() as u32 {
        if group.has(net, elem) {
            let ratio = ratios.of_leaf(elem);
            ports.push(Port { elem, ratio })?;
        }
    }
    Ok(ports)
}

impl Ledger {
    /// A ledger of so many channels before their first frames. `ratios` are those of the network.
    ///
    /// # Errors
    ///
    /// Where no memory is left.
    pub fn new(
        alloc: Global,
        net: &Net,
        ratios: &Ratios,
        channels: usize,
    ) -> Result<Ledger, AllocError>
        requires { HasLeafNumbers net.now ratios.now }
        ensures net { IfOk result (λ l. l.net ≡ net.now) }
        ensures accounts { IfOk result (λ l. l.accounts ≡ replicate channels (opened net.now)) }
    {
        let net = net.copy(alloc)?;
        let absorbing = ports_of(alloc, &net, ratios, Group::Absorbing)?;
        let reactive = ports_of(alloc, &net, ratios, Group::Reactive)?;
        let accounts = vec![in alloc; Account::new(); channels]?;
        Ok(Ledger {
            net,
            absorbing,
            reactive,
            accounts,
        })
    }

    /// Notes a frame of a channel: `values` are those of the sources, source 0 first, and `downs`
    /// the down waves of all elements, in netlist order.
    ///
    /// No sum of squares reaches 2^124.
    pub fn note(&mut self, channel: usize, values: &[i64], downs: &[i64])
        requires channel { channel < length self.old.accounts }
        requires values { length values.now ≡ length (source_numbers self.old.net) }
        requires waves { length downs.now ≡ length (elements self.old.net) }
        requires room { HasRoom (noted self.old.net values.now (wave_at downs.now) (account_at self.old channel)) }
        ensures { self.new ≡ noted_in self.old channel values.now downs.now }
    {
        self.accounts[channel].note(&self.absorbing, &self.reactive, values, downs);
    }

    /// Notes so many frames of a channel, at least one, which has a column of its own in the rows.
    /// `values` has a row for each source of each frame, source 0 first, frame after frame; `waves`
    /// one for each resistor and source, in netlist order, of each frame, with the waves that they
    /// were sent. `downs` are the down waves of all elements in the last frame, in netlist order.
    ///
    /// No sum of squares reaches 2^124.
    pub fn note_block<const C: usize>(
        &mut self,
        channel: usize,
        column: usize,
        count: usize,
        values: &[[i64; C]],
        waves: &[[i64; C]],
        downs: &[i64],
    )
        requires runs { C ≤ 8 }
        requires channel { channel < length self.old.accounts }
        requires column { column < C }
        requires some { 1 ≤ count }
        requires values { length values.now ≡ count * length (source_numbers self.old.net) }
        requires waves { length waves.now ≡ count * length (absorbing_numbers self.old.net) }
        requires downs { length downs.now ≡ length (elements self.old.net) }
        requires room { HasRoomFor self.old.net count (frame_column (length (source_numbers self.old.net)) values.now column) waves.now column (account_at self.old channel) }
        ensures net { self.new.net ≡ self.old.net }
        ensures channels { length self.new.accounts ≡ length self.old.accounts }
        ensures others { (k : ℕ) → k ≢ channel → account_at self.new k ≡ account_at self.old k }
        ensures account { (sent : ℕ → ℕ → ℤ) → HaveSent self.old.net count sent waves.now column → AreLast self.old.net count sent (wave_at downs.now)
            → NotesOver self.old.net count (frame_column (length (source_numbers self.old.net)) values.now column) sent (account_at self.old channel) (account_at self.new channel) }
    {
        self.accounts[channel].note_block::<C>(
            &self.absorbing,
            &self.reactive,
            column,
            count,
            values,
            waves,
            downs,
        );
    }

    /// Where the energy of a channel's frames went.
    ///
    /// Absorbed and stored are numbers of 128 bits, as they are for frames of the network.
    pub fn totals(&self, channel: usize) -> Totals
        requires channel { channel < length self.now.accounts }
        requires fits { FitTotals (totals_of self.now.net (account_at self.now channel)) }
        ensures { result ≡ totals_of self.now.net (account_at self.now channel) }
    {
        let account = &self.accounts[channel];
        Totals {
            incident: account.incident,
            absorbed: account.absorbed(&self.absorbing),
            stored: account.stored(&self.reactive),
        }
    }
}
