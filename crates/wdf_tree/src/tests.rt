ghost use Rattle.std.specs.Prelude.{◌≡◌, ◌<◌, ◌+◌, length, IfOk};
ghost use Rattle.wdf_law.specs.Network.{source_numbers};

use super::*;
use std::alloc::{AllocError, Global};
use std::test::Fail;
use wdf_bounds::{Plan, plan_check};
use wdf_law::{Kind, Net, Outlet, Tree};
use wdf_quant::enclose;

// A network of a leaf and a junction of two leaves, whose load is element 2, with three frames of
// samples and their load waves, worked by hand; and the down waves after the third frame, where
// they were worked.
#[derive(Clone, Copy)]
struct Row {
    m: u32,
    left: (u32, Kind),
    series: bool,
    parts: [(u32, Kind); 2],
    samples: [i16; 3],
    waves: [i64; 3],
    downs: Option<[i64; 3]>,
}

const ROWS: [Row; 4] = [
    // A source, and a capacitor and a load in parallel.
    Row {
        m: 5461,
        left: (0, Kind::Src),
        series: false,
        parts: [(1, Kind::Cap), (2, Kind::Res)],
        samples: [16384, 0, 0],
        waves: [10922, 7281, -2426],
        downs: Some([-2426, 1214, -2426]),
    },
    // An inductor in the capacitor's place.
    Row {
        m: 5461,
        left: (0, Kind::Src),
        series: false,
        parts: [(1, Kind::Ind), (2, Kind::Res)],
        samples: [16384, 0, 0],
        waves: [10922, -7281, -2426],
        downs: Some([-2426, 1214, -2426]),
    },
    // A source, and a resistor and a load in series.
    Row {
        m: 10923,
        left: (0, Kind::Src),
        series: true,
        parts: [(1, Kind::Res), (2, Kind::Res)],
        samples: [3000, -3000, 0],
        waves: [2000, -2000, 0],
        downs: Some([0, 0, 0]),
    },
    // The first with its root at the capacitor.
    Row {
        m: 5461,
        left: (1, Kind::Cap),
        series: false,
        parts: [(0, Kind::Src), (2, Kind::Res)],
        samples: [16384, 0, 0],
        waves: [10923, 7281, -2427],
        downs: None,
    },
];

fn leaf(element: (u32, Kind)) -> Tree {
    Tree::Leaf {
        elem: element.0,
        kind: element.1,
        flip: false,
    }
}

fn junction(alloc: Global, series: bool, parts: [(u32, Kind); 2]) -> Result<Tree, AllocError> {
    let m = 8192;
    let l = Box::new(alloc, leaf(parts[0]))?;
    let r = Box::new(alloc, leaf(parts[1]))?;
    if series {
        Ok(Tree::Series { m, l, r })
    } else {
        Ok(Tree::Parallel { m, l, r })
    }
}

// An engine for three frames of 16 bits.
fn engine_of(alloc: Global, net: Net) -> Result<TreeEngine, Fail>
    requires { net.k ≡ 14 }
    ensures net { IfOk result (λ a. a.net ≡ net) }
    ensures amplitude { IfOk result (λ a. a.plan.amp ≡ 32768) }
    ensures frames { IfOk result (λ a. (a.plan.frames ≡ 3) × (a.done ≡ 0)) }
{
    let Some(plan) = Plan::new(14, 0, 0, 3, 32768, 16) else {
        unreachable!()
    };
    let ratios = enclose(alloc, &net)?;
    plan_check(alloc, &net, &ratios, &plan)?;
    Ok(TreeEngine::new(alloc, net, plan)?)
}

#[test]
fn worked_networks(rt: HostRuntime) -> Result<(), Fail> {
    let alloc = rt.alloc();
    let rows = ROWS;
    for row in &rows {
        let right = junction(alloc, row.series, row.parts)?;
        let net = Net::new(14, row.m, leaf(row.left), right, Outlet::Load(2))?;
        if net.source_count() == 1 {
            let mut engine = engine_of(alloc, net)?;
            let first = engine.step(&[i64::from(row.samples[0])]);
            let second = engine.step(&[i64::from(row.samples[1])]);
            let third = engine.step(&[i64::from(row.samples[2])]);
            assert_eq!(rt; [first, second, third], row.waves);
            assert!(rt;
                row.downs
                    .is_none_or(|downs| engine.downs() == downs.as_slice())
            );
            assert_eq!(rt; engine.done(), 3);
        } else {
            assert!(rt; false);
        }
    }
    Ok(())
}

// A source, and a second one and a load in parallel: each has its own sample.
#[test]
fn two_sources(rt: HostRuntime) -> Result<(), Fail> {
    let alloc = rt.alloc();
    let right = junction(alloc, false, [(1, Kind::Src), (2, Kind::Res)])?;
    let net = Net::new(14, 5461, leaf((0, Kind::Src)), right, Outlet::Load(2))?;
    if net.source_count() == 2 {
        let mut engine = engine_of(alloc, net)?;
        assert_eq!(rt; engine.step(&[3000, 6000]), 6000);
        assert_eq!(rt; engine.step(&[3, -3]), 0);
        assert!(rt; engine.downs() == [-2, 2, 0].as_slice() && engine.state().is_empty());
    } else {
        assert!(rt; false);
    }
    Ok(())
}
