use super::*;
use std::alloc::{AllocError, Global};
use std::test::*;
use wdf_law::{Kind, Net, Outlet, Tree};
use wdf_quant::enclose;

// k, guard, shift, frames, amp and bits, and whether they are in range.
static PLANS: [(u8, u8, u8, u32, u32, u8, bool); 12] = [
    (14, 4, 0, 67_108_864, 32_768, 16, true),
    (1, 0, 0, 1, 1, 8, true),
    (20, 16, 16, 4_294_967_295, 2_147_483_648, 32, true),
    (0, 4, 0, 1, 1, 16, false),
    (21, 4, 0, 1, 1, 16, false),
    (14, 17, 0, 1, 1, 16, false),
    (14, 4, 17, 1, 1, 16, false),
    (14, 4, 0, 0, 1, 16, false),
    (14, 4, 0, 1, 0, 16, false),
    (14, 4, 0, 1, 32_769, 16, false),
    (14, 4, 0, 1, 8_388_608, 24, true),
    (14, 4, 0, 1, 1, 12, false),
];

#[test]
fn plans_have_their_ranges(rt: HostRuntime) {
    for (k, guard, shift, frames, amp, bits, good) in &PLANS {
        let plan = Plan::new(*k, *guard, *shift, *frames, *amp, *bits);
        assert_eq!(rt;
            plan.is_some(),
            *good,
            "of {k}, {guard}, {shift}, {frames}, {amp}, {bits}"
        );
        if let Some(plan) = plan {
            assert_eq!(rt;
                (plan.k(), plan.guard(), plan.shift()),
                (*k, *guard, *shift)
            );
            assert_eq!(rt;
                (plan.frames(), plan.amp(), plan.bits()),
                (*frames, *amp, *bits)
            );
        }
    }
}

fn leaf(elem: u32, kind: Kind) -> Tree {
    let flip = false;
    Tree::Leaf { elem, kind, flip }
}

// A low-pass ladder of seven reactances, from the load on: at each junction its first part, the
// multiplier, and whether it is in series with what was there.
static LADDER: [(u32, Kind, u32, bool); 7] = [
    (7, Kind::Cap, 11686, false),
    (6, Kind::Ind, 15384, true),
    (5, Kind::Cap, 15750, false),
    (4, Kind::Ind, 15793, true),
    (3, Kind::Cap, 15791, false),
    (2, Kind::Ind, 15734, true),
    (1, Kind::Cap, 15065, false),
];

// The bounds of its elements, by another program.
static LADDER_BOUNDS: [u64; 9] = [
    4_294_967_296,
    2_723_282_944,
    9_019_129_856,
    1_867_272_192,
    9_460_338_688,
    1_866_543_104,
    9_014_841_344,
    2_721_452_032,
    4_292_169_728,
];

// The right tree of the ladder.
fn ladder(alloc: Global) -> Result<Tree, AllocError> {
    let mut tree = leaf(8, Kind::Res);
    for (elem, kind, m, in_series) in &LADDER {
        let l = Box::new(alloc, leaf(*elem, *kind))?;
        let r = Box::new(alloc, tree)?;
        let m = *m;
        tree = if *in_series {
            Tree::Series { m, l, r }
        } else {
            Tree::Parallel { m, l, r }
        };
    }
    Ok(tree)
}

#[test]
fn bounds_of_a_ladder_are_those_of_another_program(rt: HostRuntime) -> Result<(), Fail> {
    let alloc = rt.alloc();
    let net = Net::new(
        14,
        4422,
        leaf(0, Kind::Src),
        ladder(alloc)?,
        Outlet::Load(8),
    )?;
    let ratios = enclose(alloc, &net)?;
    let Some(plan) = Plan::new(14, 4, 0, 67_108_864, 32_768, 16) else {
        assert!(rt; false, "a plan");
        return Ok(());
    };
    let bounds = plan_check(alloc, &net, &ratios, &plan)?;
    assert_eq!(rt; bounds.largest(), 9_635_725_312);
    assert_eq!(rt; bounds.words().len(), 16);
    for (port, word) in ratios.list().iter().zip(bounds.words()) {
        if port.leaf {
            assert_eq!(rt;
                LADDER_BOUNDS.get(port.elem as usize),
                Some(word),
                "of {}",
                port.elem
            );
        }
    }
    Ok(())
}

// A source and, in parallel, a capacitor and a load, all of one resistance, without guard bits.
#[test]
fn bounds_of_three_ports_of_one_resistance(rt: HostRuntime) -> Result<(), Fail> {
    let alloc = rt.alloc();
    let l = Box::new(alloc, leaf(1, Kind::Cap))?;
    let r = Box::new(alloc, leaf(2, Kind::Res))?;
    let right = Tree::Parallel { m: 8192, l, r };
    let net = Net::new(14, 5461, leaf(0, Kind::Src), right, Outlet::Load(2))?;
    let ratios = enclose(alloc, &net)?;
    let Some(plan) = Plan::new(14, 0, 0, 67_108_864, 32_768, 16) else {
        assert!(rt; false, "a plan");
        return Ok(());
    };
    let bounds = plan_check(alloc, &net, &ratios, &plan)?;
    assert_eq!(rt; bounds.largest(), 268_435_456);
    assert_eq!(rt; bounds.words().first(), Some(&268_435_456));
    assert_eq!(rt; bounds.words().last(), Some(&268_423_424));
    Ok(())
}

// Two ports of one resistance, 16 bits of a multiplier, 8 guard bits and samples of 32 bits.
#[test]
fn a_plan_of_too_wide_words_is_refused(rt: HostRuntime) -> Result<(), Fail> {
    let alloc = rt.alloc();
    let net = Net::new(
        16,
        32768,
        leaf(0, Kind::Src),
        leaf(1, Kind::Res),
        Outlet::Load(1),
    )?;
    let ratios = enclose(alloc, &net)?;
    let Some(plan) = Plan::new(16, 8, 0, 67_108_864, 2_147_483_648, 32) else {
        assert!(rt; false, "a plan");
        return Ok(());
    };
    let Err(fault) = plan_check(alloc, &net, &ratios, &plan) else {
        assert!(rt; false, "words of 2^52");
        return Ok(());
    };
    let need = 4_503_599_627_370_496;
    let limit = 17_592_186_044_416;
    assert_eq!(rt;
        fault,
        BoundFault::Word {
            element: 0,
            need,
            limit
        }
    );
    Ok(())
}
