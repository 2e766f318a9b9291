ghost use Rattle.std.specs.Prelude.{◌≡◌, ◌<◌, false, [], ◌∷◌, length, IfOk};
ghost use Rattle.wdf_law.specs.Trees.{adaptor_tree, leaf};
ghost use Rattle.wdf_quant.specs.WorkedWalks.{one_source};
ghost use Rattle.wdf_energy.specs.Accounts.{FitTotals, account_at, opened, totals_of};

use super::*;
use crate::port::Port;
use std::alloc::Global;
use std::test::Fail;
use wdf_law::{Kind, Net, Outlet, Tree};
use wdf_quant::enclose;

fn leaf(elem: u32, kind: Kind) -> Tree
    ensures { adaptor_tree result ≡ leaf elem kind false }
{
    let flip = false;
    Tree::Leaf { elem, kind, flip }
}

// A source and, in parallel, a capacitor and the load.
fn network(alloc: Global) -> Result<Net, Fail>
    ensures { IfOk result (λ n. n ≡ one_source) }
{
    let l = Box::new(alloc, leaf(1, Kind::Cap))?;
    let r = Box::new(alloc, leaf(2, Kind::Res))?;
    let right = Tree::Parallel { m: 8192, l, r };
    Ok(Net::new(14, 5461, leaf(0, Kind::Src), right, Outlet::Load(2))?)
}

// Its ledger of two channels.
fn new_ledger(alloc: Global) -> Result<Ledger, Fail>
    ensures net { IfOk result (λ l. l.net ≡ one_source) }
    ensures accounts { IfOk result (λ l. l.accounts ≡ opened one_source ∷ opened one_source ∷ []) }
{
    let net = network(alloc)?;
    let ratios = enclose(alloc, &net)?;
    Ok(Ledger::new(alloc, &net, &ratios, 2)?)
}

// A pulse in channel 0, and the last frame of one in channel 1.
#[test]
fn channels_have_sums_of_their_own(rt: HostRuntime) -> Result<(), Fail> {
    let mut ledger = new_ledger(rt.alloc())?;
    ledger.note(0, &[16384], &[-5462, 10922, 10922]);
    ledger.note(1, &[0], &[-2426, 1214, -2426]);
    ledger.note(0, &[0], &[7281, -3641, 7281]);
    ledger.note(0, &[0], &[-2426, 1214, -2426]);
    let pulse = ledger.totals(0);
    assert_eq!(rt; pulse.incident, 268_435_456);
    assert_eq!(rt; pulse.absorbed, 266_936_716);
    assert_eq!(rt; pulse.stored, 1_473_930);
    let last = ledger.totals(1);
    assert_eq!(rt; last.incident, 0);
    assert_eq!(rt; last.absorbed, 11_771_490);
    assert_eq!(rt; last.stored, 1_473_930);
    Ok(())
}

// The pulse as one block, in the second column of rows of two.
fn note_pulse(ledger: &mut Ledger)
    requires net { ledger.old.net ≡ one_source }
    requires accounts { ledger.old.accounts ≡ opened one_source ∷ opened one_source ∷ [] }
    ensures channel { 0 < length ledger.new.accounts }
    ensures fits { FitTotals (totals_of ledger.new.net (account_at ledger.new 0)) }
{
    let values = [[1, 16384], [2, 0], [3, 0]];
    let waves = [
        [4, -5462],
        [5, 10922],
        [6, 7281],
        [7, 7281],
        [8, -2426],
        [9, -2426],
    ];
    ledger.note_block::<2>(0, 1, 3, &values, &waves, &[-2426, 1214, -2426]);
}

#[test]
fn a_block_has_the_sums_of_its_frames(rt: HostRuntime) -> Result<(), Fail> {
    let mut ledger = new_ledger(rt.alloc())?;
    note_pulse(&mut ledger);
    let pulse = ledger.totals(0);
    assert_eq!(rt; pulse.incident, 268_435_456);
    assert_eq!(rt; pulse.absorbed, 266_936_716);
    assert_eq!(rt; pulse.stored, 1_473_930);
    Ok(())
}

// Sums whose products by 2^40 have up to 164 bits.
#[test]
fn parts_of_the_largest_sums(rt: HostRuntime) {
    let most = (1 << 124) - 1;
    let port = Port {
        elem: 0,
        ratio: 1 << 36,
    };
    assert_eq!(rt; port.part(most), u128::MAX - 15);
    let port = Port {
        elem: 0,
        ratio: 68_719_476_737,
    };
    assert_eq!(rt;
        port.part(most),
        340_282_366_915_986_703_306_305_143_926_208_593_904
    );
    let port = Port {
        elem: 0,
        ratio: 1 << 62,
    };
    assert_eq!(rt; port.part(most), (1 << 102) - 1);
    let port = Port { elem: 0, ratio: 1 };
    assert_eq!(rt; port.part((1 << 88) - 1), u128::MAX - ((1 << 40) - 1));
}
