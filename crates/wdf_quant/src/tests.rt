ghost use Rattle.std.specs.Prelude.{◌≡◌, false};
ghost use Rattle.wdf_law.specs.PortOutline.{leaf_port, port_outline};

use super::*;
use std::alloc::{AllocError, Global};
use std::test::*;
use wdf_law::{Kind, Net, Outlet, PortTree, Tree};

// Two ratios, whether the adaptor is in series, k, and the multiplier: those of filters whose ratios
// and multipliers another program gave, and at the ends of the ranges.
static MULTIPLIERS: [(u64, u64, bool, u8, u32); 30] = [
    (1099511627776, 406473189993, false, 14, 4422),
    (442060930098, 5049096006106, false, 14, 15065),
    (4848846278492, 200249727614, true, 14, 15734),
    (207768637146, 5533463704841, false, 14, 15791),
    (5333730906341, 199732798500, true, 14, 15793),
    (207768637146, 5164141935738, false, 14, 15750),
    (4848846278492, 315295657246, true, 14, 15384),
    (442060930098, 1099511627776, false, 14, 11686),
    (1099511627776, 5841155522560, false, 14, 13789),
    (1832519379627, 4008636142933, true, 14, 5140),
    (5131054262955, 18325193796267, false, 14, 12800),
    (4031542635179, 1099511627776, true, 14, 12873),
    (1099511627776, 164463958568968, false, 14, 16275),
    (162544468972885, 1919489596083, true, 14, 16193),
    (2095265698178, 22880474994882, false, 14, 15010),
    (2097664125031, 1832519379626667, false, 14, 16365),
    (22173484493483, 706990501399, true, 14, 15878),
    (1099511627776, 1092682435689, false, 14, 8166),
    (175923744449641, 1099511627776, false, 14, 102),
    (175921860444160, 1884005481, true, 14, 16383),
    (1099511627776, 776576334308267, false, 14, 16361),
    (759982437118771, 16593897189496, true, 14, 16034),
    (20452225219048, 87960930222080, false, 14, 13293),
    (1099511627776, 137438953472, false, 14, 1820),
    (1099511627776, 8796093022208, false, 14, 14564),
    (1099511627776, 274878, false, 14, 1),
    (1099511627776, 4398046511104000000, false, 14, 16383),
    (1, 4611686018427387904, true, 20, 1),
    (1, 4611686018427387904, false, 20, 1048575),
    (4611686018427387904, 4611686018427387904, true, 1, 1),
];

#[test]
fn multipliers_are_those_of_another_program(rt: HostRuntime) {
    for (r1, r2, series, k, m) in &MULTIPLIERS {
        let within = 1 << 62;
        if *r1 >= 1 && *r1 <= within && *r2 >= 1 && *r2 <= within && *k >= 1 && *k <= 20 {
            assert_eq!(rt; multiplier(*r1, *r2, *series, *k), *m, "of {r1} and {r2}");
        } else {
            assert!(rt; false, "out of range: {r1}, {r2}, {k}");
        }
    }
}

fn leaf(elem: u32, kind: Kind) -> Tree {
    let flip = false;
    Tree::Leaf { elem, kind, flip }
}

fn port(elem: u32, kind: Kind, ratio: u64) -> PortTree
    ensures { port_outline result ≡ leaf_port elem kind false ratio }
{
    let flip = false;
    PortTree::Leaf {
        elem,
        kind,
        flip,
        ratio,
    }
}

// A source, and in parallel a capacitor and a load of its resistance.
#[test]
fn a_network_has_the_multipliers_of_its_ports(rt: HostRuntime) -> Result<(), Fail> {
    let alloc = rt.alloc();
    let one = 1 << 40;
    let l = Box::new(alloc, port(1, Kind::Cap, one))?;
    let r = Box::new(alloc, port(2, Kind::Res, one))?;
    let ratio = 1 << 39;
    let right = PortTree::Parallel { ratio, l, r };
    let net = quantise(alloc, &port(0, Kind::Src, one), &right, 14, Outlet::Load(2))?;
    assert!(rt; net.k() == 14 && net.outlet() == Outlet::Load(2));
    assert_eq!(rt; net.multiplier_at(0), Some(5461));
    assert_eq!(rt; net.multiplier_at(1), Some(8192));
    assert_eq!(rt; net.multiplier_at(2), None);
    Ok(())
}

fn two_in_parallel(alloc: Global, kind: Kind) -> Result<Tree, AllocError> {
    let l = Box::new(alloc, leaf(1, kind))?;
    let r = Box::new(alloc, leaf(2, Kind::Res))?;
    Ok(Tree::Parallel { m: 8192, l, r })
}

// A source and, in parallel, a second one and a load; and the numbers of their ports, from another
// program.
#[test]
fn numbers_are_summed_over_the_sources(rt: HostRuntime) -> Result<(), Fail> {
    let alloc = rt.alloc();
    let right = two_in_parallel(alloc, Kind::Src)?;
    let net = Net::new(14, 5461, leaf(0, Kind::Src), right, Outlet::Load(2))?;
    let ratios = enclose(alloc, &net)?;
    let numbers = [
        2_199_123_924_993,
        1_099_461_297_664,
        2_198_922_595_328,
        2_198_922_595_328,
    ];
    assert_eq!(rt; ratios.list().len(), 4);
    for (port, number) in ratios.list().iter().zip(&numbers) {
        assert_eq!(rt; port.ratio, *number, "of element {}", port.elem);
    }
    if net.element_count() == 3 {
        assert_eq!(rt; ratios.of_leaf(0), 2_199_123_924_993);
        assert_eq!(rt; ratios.of_leaf(2), 2_198_922_595_328);
    }
    Ok(())
}

// So many resistors in parallel, of which each halves what is left, after a source.
fn halving(alloc: Global, count: u32) -> Result<Tree, AllocError> {
    let mut tree = leaf(1, Kind::Res);
    for elem in 2..=count {
        let l = Box::new(alloc, tree)?;
        let r = Box::new(alloc, leaf(elem, Kind::Res))?;
        tree = Tree::Parallel { m: 1, l, r };
    }
    Ok(tree)
}

#[test]
fn a_number_may_be_2_to_the_62nd_and_no_more(rt: HostRuntime) -> Result<(), Fail> {
    let alloc = rt.alloc();
    let source = leaf(0, Kind::Src);
    let net = Net::new(1, 1, source, halving(alloc, 23)?, Outlet::Load(1))?;
    let ratios = enclose(alloc, &net)?;
    let most = ratios.list().iter().map(|port| port.ratio).max();
    assert_eq!(rt; most, Some(4_611_686_018_427_387_904));

    let source = leaf(0, Kind::Src);
    let net = Net::new(1, 1, source, halving(alloc, 24)?, Outlet::Load(1))?;
    let Err(fault) = enclose(alloc, &net) else {
        assert!(rt; false, "a number of 2^63");
        return Ok(());
    };
    let need = 9_223_372_036_854_775_808;
    assert_eq!(rt; fault, RatioFault::Wide { element: 1, need });
    Ok(())
}
