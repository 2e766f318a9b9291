ghost use Rattle.std.specs.Prelude.{◌≡◌, ◌≤◌, false, IfOk};
ghost use Rattle.wdf_law.specs.Trees.{adaptor_tree, leaf};
ghost use Rattle.wdf_quant.specs.WorkedWalks.{one_source};
ghost use Rattle.wdf_loop.specs.Engines.{HoldsLedger, runs_of};

use crate::Engine;
use std::alloc::Global;
use std::test::Fail;
use wdf_bounds::{Plan, plan_check};
use wdf_energy::Ledger;
use wdf_energy::laws::frames_followed;
use wdf_law::{Kind, Net, Outlet, Tree};
use wdf_quant::enclose;
use wdf_sched::compile;

fn leaf(elem: u32, kind: Kind) -> Tree
    ensures { adaptor_tree result ≡ leaf elem kind false }
{
    let flip = false;
    Tree::Leaf { elem, kind, flip }
}

// A source and, in parallel, a capacitor and the load.
fn network(alloc: Global) -> Result<Net, Fail>
    ensures { IfOk result (λ n. n ≡ one_source) }
{
    let l = Box::new(alloc, leaf(1, Kind::Cap))?;
    let r = Box::new(alloc, leaf(2, Kind::Res))?;
    let right = Tree::Parallel { m: 8192, l, r };
    Ok(Net::new(14, 5461, leaf(0, Kind::Src), right, Outlet::Load(2))?)
}

// Runs of it for three frames of 16 bits, and their ledger.
struct Running {
    engine: Engine,
    ledger: Ledger,
}

fn seven_runs(alloc: Global) -> Result<Running, Fail>
    ensures net { IfOk result (λ r. r.engine.schedule.net ≡ one_source) }
    ensures runs { IfOk result (λ r. runs_of r.engine ≡ 7) }
    ensures done { IfOk result (λ r. r.engine.done ≡ 0) }
    ensures frames { IfOk result (λ r. r.engine.plan.frames ≡ 3) }
    ensures amplitude { IfOk result (λ r. r.engine.plan.amp ≡ 32768) }
    ensures ledger { IfOk result (λ r. HoldsLedger r.engine r.ledger) }
{
    let Some(plan) = Plan::new(14, 0, 0, 3, 32768, 16) else {
        unreachable!()
    };
    let net = network(alloc)?;
    let ratios = enclose(alloc, &net)?;
    plan_check(alloc, &net, &ratios, &plan)?;
    frames_followed(&net, &plan);
    let ledger = Ledger::new(alloc, &net, &ratios, 7)?;
    let engine = Engine::new(alloc, compile(alloc, net)?, plan, 7)?;
    Ok(Running { engine, ledger })
}

// A pulse in each run, in two blocks: in frame 0 of the runs 0, 3 and 6, in frame 1 of the runs 1
// and 4, and in frame 2 of the runs 2 and 5.
fn pulses(engine: &mut Engine, ledger: &mut Ledger, first: &mut [i64; 7], rest: &mut [i64; 14])
    requires net { engine.old.schedule.net ≡ one_source }
    requires runs { runs_of engine.old ≡ 7 }
    requires done { engine.old.done ≡ 0 }
    requires frames { engine.old.plan.frames ≡ 3 }
    requires amplitude { engine.old.plan.amp ≡ 32768 }
    requires ledger { HoldsLedger engine.old ledger.old }
    ensures net { engine.new.schedule.net ≡ one_source }
    ensures runs { runs_of engine.new ≡ 7 }
{
    engine.block(&[16384, 0, 0, 16384, 0, 0, 16384], first, ledger);
    engine.block(
        &[0, 16384, 0, 0, 16384, 0, 0, 0, 0, 16384, 0, 0, 16384, 0],
        rest,
        ledger,
    );
}

// The waves of a pulse, worked by hand, in each run from its own frame on.
#[test]
fn each_run_has_its_own_pulse(rt: HostRuntime) -> Result<(), Fail> {
    let Running {
        mut engine,
        mut ledger,
    } = seven_runs(rt.alloc())?;
    let mut first = [0; 7];
    let mut rest = [0; 14];
    pulses(&mut engine, &mut ledger, &mut first, &mut rest);
    assert_eq!(rt; first, [10922, 0, 0, 10922, 0, 0, 10922]);
    assert_eq!(rt;
        rest,
        [
            7281, 10922, 0, 7281, 10922, 0, 7281, -2426, 7281, 10922, -2426, 7281, 10922, -2426
        ]
    );
    assert_eq!(rt; engine.done(), 3);
    for run in 0..7 {
        let (up, down) = engine.waves(run, 1);
        match run % 3 {
            0 => assert!(rt; up == -3641 && down == 1214),
            1 => assert!(rt; up == 10922 && down == -3641),
            _ => assert!(rt; up == 0 && down == 10922),
        }
    }
    if engine.schedule().slot_count() == 9 {
        // The raw slot of the only parallel junction.
        assert_eq!(rt; engine.slot(0, 3), -29_827_072);
        assert_eq!(rt; engine.slot(6, 3), -29_827_072);
        assert_eq!(rt; engine.slot(2, 3), 0);
    } else {
        assert!(rt; false);
    }
    Ok(())
}
