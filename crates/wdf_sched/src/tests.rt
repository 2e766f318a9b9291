use super::*;
use std::alloc::{AllocError, Global};
use std::test::Fail;
use wdf_law::{Kind, Net, Outlet, Tree};

fn leaf(elem: u32, kind: Kind) -> Tree {
    Tree::Leaf {
        elem,
        kind,
        flip: false,
    }
}

fn series(alloc: Global, m: u32, l: Tree, r: Tree) -> Result<Tree, AllocError> {
    let l = Box::new(alloc, l)?;
    let r = Box::new(alloc, r)?;
    Ok(Tree::Series { m, l, r })
}

fn parallel(alloc: Global, m: u32, l: Tree, r: Tree) -> Result<Tree, AllocError> {
    let l = Box::new(alloc, l)?;
    let r = Box::new(alloc, r)?;
    Ok(Tree::Parallel { m, l, r })
}

// A source, and a capacitor and a load in parallel: slots 0, 1 and 2 are theirs.
const ONE_JUNCTION: [Op; 3] = [
    Op::UpParallel {
        a: 1,
        b: 2,
        m: 8192,
        raw: 3,
        out: 4,
    },
    Op::Root {
        a: 0,
        b: 4,
        m: 5461,
        x: 5,
        y: 6,
    },
    Op::DownParallel {
        a: 1,
        b: 2,
        d: 6,
        raw: 3,
        x: 7,
        y: 8,
    },
];

// An inductor, and a capacitor and a load in parallel, in series, at the right of a source: slots
// 0 to 3 are the elements'. The way down takes the series junction first.
const TWO_JUNCTIONS: [Op; 5] = [
    Op::UpParallel {
        a: 1,
        b: 2,
        m: 8192,
        raw: 4,
        out: 5,
    },
    Op::UpSeries { a: 3, b: 5, out: 6 },
    Op::Root {
        a: 0,
        b: 6,
        m: 5461,
        x: 7,
        y: 8,
    },
    Op::DownSeries {
        a: 3,
        b: 5,
        d: 8,
        m: 10923,
        x: 9,
        y: 10,
    },
    Op::DownParallel {
        a: 1,
        b: 2,
        d: 10,
        raw: 4,
        x: 11,
        y: 12,
    },
];

// A series junction in the left tree and a parallel one in the right: the way up takes the left
// tree first, and the way down the right.
const BOTH_SIDES: [Op; 5] = [
    Op::UpSeries { a: 0, b: 3, out: 4 },
    Op::UpParallel {
        a: 1,
        b: 2,
        m: 8192,
        raw: 5,
        out: 6,
    },
    Op::Root {
        a: 4,
        b: 6,
        m: 5461,
        x: 7,
        y: 8,
    },
    Op::DownParallel {
        a: 1,
        b: 2,
        d: 8,
        raw: 5,
        x: 9,
        y: 10,
    },
    Op::DownSeries {
        a: 0,
        b: 3,
        d: 7,
        m: 10923,
        x: 11,
        y: 12,
    },
];

// Whether the schedule of the network has these operations, these down slots of the elements, by their
// numbers, and so many slots.
fn has(
    alloc: Global,
    net: Net,
    ops: &[Op],
    downs: &[u16],
    slot_count: usize,
) -> Result<bool, AllocError> {
    let schedule = compile(alloc, net)?;
    let mut down_slots = Vec::new(alloc);
    for elem in 0..schedule.net().element_count() as u32 {
        down_slots.push(schedule.leaf_slots(elem).down)?;
    }
    Ok(
        schedule.ops() == ops
            && down_slots.as_slice() == downs
            && schedule.slot_count() == slot_count,
    )
}

#[test]
fn schedules_by_hand(rt: HostRuntime) -> Result<(), Fail> {
    let alloc = rt.alloc();

    let right = parallel(alloc, 8192, leaf(1, Kind::Cap), leaf(2, Kind::Res))?;
    let net = Net::new(14, 5461, leaf(0, Kind::Src), right, Outlet::Load(2))?;
    assert!(rt; has(alloc, net, ONE_JUNCTION.as_slice(), &[5, 7, 8], 9)?);

    let below = parallel(alloc, 8192, leaf(1, Kind::Cap), leaf(2, Kind::Res))?;
    let right = series(alloc, 10923, leaf(3, Kind::Ind), below)?;
    let net = Net::new(14, 5461, leaf(0, Kind::Src), right, Outlet::Load(2))?;
    assert!(rt; has(alloc, net, TWO_JUNCTIONS.as_slice(), &[7, 11, 12, 9], 13)?);

    let left = series(alloc, 10923, leaf(0, Kind::Src), leaf(3, Kind::Ind))?;
    let right = parallel(alloc, 8192, leaf(1, Kind::Cap), leaf(2, Kind::Res))?;
    let net = Net::new(14, 5461, left, right, Outlet::Load(2))?;
    assert!(rt; has(alloc, net, BOTH_SIDES.as_slice(), &[11, 9, 10, 12], 13)?);
    Ok(())
}
