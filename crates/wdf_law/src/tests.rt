use super::*;
use std::alloc::{AllocError, Global};
use std::test::*;

// Whether two trees have the same leaves and multipliers.
fn same(a: &Tree, b: &Tree) -> bool {
    match (a, b) {
        (
            Tree::Leaf { elem, kind, flip },
            Tree::Leaf {
                elem: e,
                kind: k,
                flip: f,
            },
        ) => { elem == e && kind == k && flip == f }
        (Tree::Series { m, l, r }, Tree::Series { m: n, l: a, r: b })
        | (Tree::Parallel { m, l, r }, Tree::Parallel { m: n, l: a, r: b }) => {
            m == n && same(l, a) && same(r, b)
        }
        _ => false,
    }
}

fn leaf(elem: u32, kind: Kind) -> Tree {
    let flip = false;
    Tree::Leaf { elem, kind, flip }
}

// A capacitor and a load in parallel.
fn capacitor_and_load(alloc: Global) -> Result<Tree, AllocError> {
    let l = Box::new(alloc, leaf(1, Kind::Cap))?;
    let r = Box::new(alloc, leaf(2, Kind::Res))?;
    Ok(Tree::Parallel { m: 8192, l, r })
}

#[test]
fn a_copy_is_equal(rt: HostRuntime) -> Result<(), Fail> {
    let alloc = rt.alloc();
    let right = capacitor_and_load(alloc)?;
    let net = Net::new(14, 5461, leaf(0, Kind::Src), right, Outlet::Load(2))?;
    let copy = net.copy(alloc)?;
    assert!(rt; copy.k() == 14 && copy.root_m() == 5461 && copy.outlet() == Outlet::Load(2));
    assert!(rt; same(copy.left(), &leaf(0, Kind::Src)));
    assert!(rt; same(copy.right(), &capacitor_and_load(alloc)?));
    Ok(())
}

// So many sources in series, the greatest number first.
fn sources_in_series(alloc: Global, count: u32) -> Result<Tree, AllocError> {
    let mut tree = leaf(0, Kind::Src);
    for elem in 1..count {
        let l = Box::new(alloc, leaf(elem, Kind::Src))?;
        let r = Box::new(alloc, tree)?;
        tree = Tree::Series { m: 8192, l, r };
    }
    Ok(tree)
}

#[test]
fn a_ninth_source_is_refused(rt: HostRuntime) -> Result<(), Fail> {
    let alloc = rt.alloc();
    let sources = sources_in_series(alloc, 8)?;
    let net = Net::new(14, 8192, leaf(8, Kind::Res), sources, Outlet::Source)?;
    assert!(rt; net.source_count() == 8 && net.outlet_element() == 0);
    let sources = sources_in_series(alloc, 9)?;
    let refused = Net::new(14, 8192, leaf(9, Kind::Res), sources, Outlet::Source);
    assert!(rt; matches!(refused, Err(NetError::TooManySources { elem: 8 })));
    Ok(())
}
