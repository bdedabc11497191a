//! Forests over sets kept as lists, as runs and as rectangles: what they tell, and how faulty ones are refused.

use crate::planes::{drawn_rects, drawn_set};
use bumpalo::Bump;
use point_set::{PointList, PointSet, RectSet, RunSet};
use region_tree::{
    ArenaSet, Decls, Forest, ForestFault, Part, Path, SetOfRects, Space, Sub, is_forest,
};
use std::alloc::Global;
use std::process::Abort;
use std::test::Fail;

/// Two trees: the spaces, each with the bits of its plane, the spaces from the topmost one down to it, and the steps between these, by partition and colour.
const SPACES: [(u32, u64, &[u32], &[(u32, u32)]); 11] = [
    (1, 0xfffe, &[1], &[]),
    (2, 0x00fe, &[1, 2], &[(1, 0)]),
    (3, 0xff00, &[1, 3], &[(1, 1)]),
    (4, 0x0660, &[1, 4], &[(2, 0)]),
    (5, 0xe600, &[1, 5], &[(2, 8)]),
    (6, 0x0060, &[1, 4, 6], &[(2, 0), (3, 7)]),
    (7, 0x0400, &[1, 4, 7], &[(2, 0), (3, 5)]),
    (8, 0x0000, &[1, 2, 8], &[(1, 0), (4, 0)]),
    (9, 0x0088, &[1, 2, 9], &[(1, 0), (4, 1)]),
    (10, 0x8880, &[10], &[]),
    (11, 0x8800, &[10, 11], &[(5, 0)]),
];

/// Their partitions, each with the space that it cuts, and whether it is disjoint.
const PARTS: [(u32, u32, bool); 5] = [
    (1, 1, true),
    (2, 1, false),
    (3, 4, true),
    (4, 2, false),
    (5, 10, true),
];

/// Two spaces, and the column and the row of the least point that they share.
const SHARED: [(u32, u32, Option<(u64, u64)>); 18] = [
    (1, 1, Some((0, 1))),
    (1, 2, Some((0, 1))),
    (2, 3, None),
    (2, 4, Some((1, 1))),
    (3, 4, Some((2, 1))),
    (4, 5, Some((2, 1))),
    (2, 5, None),
    (6, 7, None),
    (6, 2, Some((1, 1))),
    (7, 3, Some((2, 2))),
    (7, 5, Some((2, 2))),
    (6, 5, None),
    (8, 1, None),
    (9, 6, None),
    (9, 3, None),
    (10, 9, Some((1, 3))),
    (11, 3, Some((2, 3))),
    (11, 4, None),
];

/// The declarations of the two trees.
fn trees<P: SetOfRects + Copy, F: Fn(u64) -> Option<P>>(
    alloc: Global,
    set_of: F,
) -> Option<Decls<P>>
    requires { F.IsAlwaysCallable set_of }
{
    let mut decls = Decls::new(alloc);
    for (id, bits, _, steps) in SPACES {
        let set = set_of(bits)?;
        decls.add_space(Space { id, set }).ok()?;
        if let Some((part, colour)) = steps.last().copied() {
            decls
                .add_sub(Sub {
                    part,
                    colour,
                    space: id,
                })
                .ok()?;
        }
    }
    for (id, space, disjoint) in PARTS {
        decls
            .add_part(Part {
                id,
                space,
                disjoint,
            })
            .ok()?;
    }
    Some(decls)
}

/// Whether a path goes by these steps.
fn goes_by(path: &Path, steps: &[(u32, u32)]) -> bool {
    for (step, (part, colour)) in path.steps().iter().zip(steps) {
        if step.part != *part || step.colour != *colour {
            return false;
        }
    }
    path.steps().len() == steps.len()
}

/// Asks a forest of the two trees for the path of each space, and for the spaces that it lies below.
fn ask_places<P: PointSet>(
    rt: &impl Abort,
    alloc: Global,
    forest: &Forest<'_, P>,
) -> Result<(), Fail> {
    for (space, _, above, steps) in SPACES {
        let Ok(Some(path)) = forest.path_of(alloc, space) else {
            return Err("no path".into());
        };
        assert!(rt; above.first() == Some(&path.top()) && goes_by(&path, steps));
        for (root, _, _, _) in SPACES {
            assert_eq!(rt; forest.under(space, root), above.contains(&root));
        }
        assert!(rt; !forest.under(space, 12) && !forest.under(12, space));
    }
    match forest.path_of(alloc, 12) {
        Ok(None) => Ok(()),
        _ => Err("a path of no space".into()),
    }
}

/// Asks a forest of the two trees what two spaces share.
fn ask_shared<P: PointSet>(
    rt: &impl Abort,
    alloc: Global,
    forest: &Forest<'_, P>,
) -> Result<(), Fail> {
    for (a, b, shared) in SHARED {
        let (Ok(Some(one)), Ok(Some(other))) = (forest.path_of(alloc, a), forest.path_of(alloc, b))
        else {
            return Err("no path".into());
        };
        let point = shared.map(|(x, y)| x * (1 << 32) + y);
        assert!(rt;
            forest.alias(&one, &other) == point && forest.alias(&other, &one) == point,
            "{a} and {b}"
        );
    }
    Ok(())
}

/// Asks the forest of the two trees, with sets of one kind.
fn ask_trees<P: SetOfRects + Copy, F: Fn(u64) -> Option<P>>(
    rt: &impl Abort,
    alloc: Global,
    set_of: F,
) -> Result<(), Fail>
    requires { F.IsAlwaysCallable set_of }
{
    let decls = trees(alloc, set_of).ok_or("no memory")?;
    if !is_forest(&decls) {
        return Err("no forest".into());
    }
    let Ok(forest) = Forest::judge(alloc, &decls) else {
        return Err("a faulty forest".into());
    };
    ask_places(rt, alloc, &forest)?;
    ask_shared(rt, alloc, &forest)
}

#[test]
fn forests_tell_alike_of_all_sets(rt: HostRuntime) -> Result<(), Fail> {
    let alloc = rt.alloc();
    let arena = Bump::new(alloc);
    ask_trees(
        &rt,
        alloc,
        |bits| drawn_set::<PointList>(alloc, &arena, bits),
    )?;
    ask_trees(&rt, alloc, |bits| drawn_set::<RunSet>(alloc, &arena, bits))?;
    ask_trees(&rt, alloc, |bits| drawn_set::<RectSet>(alloc, &arena, bits))?;
    ask_trees(&rt, alloc, |bits| drawn_rects(alloc, &arena, bits))?;
    Ok(())
}

/// A space, and a partition of it with some subspaces, all of them sets of a plane.
fn cut<'a, P: ArenaSet<'a>>(
    alloc: Global,
    arena: &'a Bump,
    disjoint: bool,
    whole: u64,
    pieces: &[u64],
) -> Option<Decls<P>> {
    let mut decls = Decls::new(alloc);
    let set = drawn_set(alloc, arena, whole)?;
    decls.add_space(Space { id: 1, set }).ok()?;
    decls
        .add_part(Part {
            id: 1,
            space: 1,
            disjoint,
        })
        .ok()?;
    let mut id = 1u32;
    for piece in pieces {
        id = id.saturating_add(1);
        let set = drawn_set(alloc, arena, *piece)?;
        decls.add_space(Space { id, set }).ok()?;
        decls
            .add_sub(Sub {
                part: 1,
                colour: id,
                space: id,
            })
            .ok()?;
    }
    Some(decls)
}

/// Which way a forest is refused, if it is: 1 for a point outside, 2 for a shared one; the subspace, the other one and the point.
fn refusal<'a, P: ArenaSet<'a>>(
    alloc: Global,
    arena: &'a Bump,
    disjoint: bool,
    whole: u64,
    pieces: &[u64],
) -> Option<(u32, usize, usize, u64)> {
    let decls: Decls<P> = cut(alloc, arena, disjoint, whole, pieces)?;
    if !is_forest(&decls) {
        return None;
    }
    match Forest::judge(alloc, &decls) {
        Ok(_) => Some((0, 0, 0, 0)),
        Err(ForestFault::NotWithin { sub, point }) => Some((1, sub, 0, point)),
        Err(ForestFault::NotDisjoint { sub, other, point }) => Some((2, sub, other, point)),
        Err(ForestFault::Memory) => None,
    }
}

/// What `refusal` gives for lists, runs and rectangles, if that is the same.
fn refusal_of_all(
    alloc: Global,
    arena: &Bump,
    disjoint: bool,
    whole: u64,
    pieces: &[u64],
) -> Option<(u32, usize, usize, u64)> {
    let lists = refusal::<PointList>(alloc, arena, disjoint, whole, pieces)?;
    let runs = refusal::<RunSet>(alloc, arena, disjoint, whole, pieces)?;
    let rects = refusal::<RectSet>(alloc, arena, disjoint, whole, pieces)?;
    if lists == runs && lists == rects {
        Some(lists)
    } else {
        None
    }
}

#[test]
fn the_first_fault_is_shown(rt: HostRuntime) -> Result<(), Fail> {
    let arena = Bump::new(rt.alloc());
    let column = 1u64 << 32;
    for (disjoint, whole, pieces, told) in [
        (true, 0xffff, [0x000f, 0x00f0, 0x0f00, 0xf000], (0, 0, 0, 0)),
        (
            true,
            0xffff,
            [0x000f, 0x0c00, 0x08f0, 0xf0f0],
            (2, 2, 1, 2 * column + 3),
        ),
        (
            true,
            0xffff,
            [0x00c0, 0x0f00, 0x0ff0, 0xf000],
            (2, 2, 0, column + 2),
        ),
        (
            false,
            0xffff,
            [0x00c0, 0x0f00, 0x0ff0, 0xf000],
            (0, 0, 0, 0),
        ),
        (
            true,
            0x0fff,
            [0x00f0, 0xe0f0, 0xf000, 0x0000],
            (1, 1, 0, 3 * column + 1),
        ),
        (
            true,
            0x0fff,
            [0x00f0, 0x0f80, 0xf000, 0xf000],
            (2, 1, 0, column + 3),
        ),
        (
            false,
            0x7fff,
            [0x7fff, 0x0fff, 0x8800, 0x8000],
            (1, 2, 0, 3 * column + 3),
        ),
        (
            false,
            0x0000,
            [0x0000, 0x0000, 0x0000, 0x0001],
            (1, 3, 0, 0),
        ),
    ] {
        assert!(rt;
            refusal_of_all(rt.alloc(), &arena, disjoint, whole, &pieces) == Some(told),
            "{whole} {told:?}"
        );
    }
    Ok(())
}

#[test]
fn forests_of_all_sets_are_judged_alike(rt: HostRuntime) -> Result<(), Fail> {
    let arena = Bump::new(rt.alloc());
    let mut bits = 1u64;
    let mut refused = [0u32; 3];
    for k in 0..200u32 {
        let mut drawn = [0u64; 8];
        for n in 0..8 {
            bits = bits.wrapping_mul(48271) % 65537;
            drawn[n] = bits & 65535;
        }
        let [a, b, c, d, e, f, g, h] = drawn;
        let pieces = [a & b & c, b & c & d, e & f & g, g & h & a];
        let whole = a | e | f | g | h;
        let disjoint = k % 3 > 0;
        let told = refusal_of_all(rt.alloc(), &arena, disjoint, whole, &pieces);
        let (way, _, _, _) = told.ok_or("different answers")?;
        let way = way.min(2) as usize;
        refused[way] = refused[way].saturating_add(1);
    }
    assert!(rt; refused[0] > 0 && refused[1] > 0 && refused[2] > 0);
    Ok(())
}
