//! Forests of logs, and of lists.

use crate::framed_logs::log_of;
use bumpalo::Bump;
use point_set::{PointSet, RunSet};
use region_tree::{Decls, Forest, ForestFault, Part, Space, Step, Sub, is_forest};
use std::alloc::Global;
use std::process::Abort;
use std::test::Fail;

/// Below space 4 lie spaces of one point in a row, so that the path of the last has more steps than one has without memory.
const ROW: &[u8] =
    b"part 3 4 disjoint\nispace 6 5\nsub 3 0 6\npart 4 6 disjoint\nispace 7 5\nsub 4 0 7\npart 5 7 disjoint\nispace 8 5\nsub 5 0 8\npart 6 8 disjoint\nispace 9 5\nsub 6 0 9\npart 7 9 disjoint\nispace 10 5\nsub 7 0 10\npart 8 10 disjoint\nispace 11 5\nsub 8 0 11\npart 9 11 disjoint\nispace 12 5\nsub 9 0 12\npart 10 12 disjoint\nispace 13 5\nsub 10 0 13\n";

/// Asks a forest all that it tells.
fn ask_forest<P: PointSet>(
    rt: &impl Abort,
    alloc: Global,
    forest: &Forest<'_, P>,
) -> Result<(), &'static str> {
    for (a, b, shared) in [
        (3, 13, Some(5)),
        (2, 4, Some(4)),
        (2, 3, None),
        (2, 13, None),
    ] {
        let (Ok(Some(a)), Ok(Some(b))) = (forest.path_of(alloc, a), forest.path_of(alloc, b)) else {
            return Err("no path");
        };
        assert_eq!(rt; forest.alias(&a, &b), shared);
    }
    let Ok(Some(path)) = forest.path_of(alloc, 13) else {
        return Err("no path");
    };
    assert!(rt; path.top() == 1 && path.steps().len() == 9);
    assert!(rt; path.steps().first() == Some(&Step { part: 2, colour: 0 }));
    assert!(rt; forest.under(13, 4) && !forest.under(13, 3));
    let set = forest.set_of(4).ok_or("no such space")?;
    assert!(rt; set.count() == 3 && set.first() == Some(4) && set.gap_from(4) == Some(7));
    Ok(())
}

#[test]
fn forests_answer(rt: HostRuntime) -> Result<(), Fail> {
    let arena = Bump::new(rt.alloc());
    let log = log_of(rt.alloc(), &arena, ROW, 0)?;
    let asked = ask_forest(&rt, rt.alloc(), &log.forest());
    log.let_go();
    Ok(asked?)
}

/// A space of one run.
fn space<'a>(arena: &'a Bump, id: u32, first: u64, last: u64) -> Option<Space<RunSet<'a>>> {
    let runs = arena.try_alloc_slice_copy(&[(first, last)]).ok()?;
    let set = RunSet::over(runs)?;
    Some(Space { id, set })
}

/// Space 1 has ten points, and a disjoint partition: the first five, and those from `first` on.
fn halves<'a>(alloc: Global, arena: &'a Bump, first: u64) -> Option<Decls<RunSet<'a>>> {
    let mut decls = Decls::new(alloc);
    decls.add_space(space(arena, 1, 0, 9)?).ok()?;
    decls.add_space(space(arena, 2, 0, 4)?).ok()?;
    decls.add_space(space(arena, 3, first, 9)?).ok()?;
    decls
        .add_part(Part {
            id: 1,
            space: 1,
            disjoint: true,
        })
        .ok()?;
    for space in 2..4u32 {
        decls
            .add_sub(Sub {
                part: 1,
                colour: space,
                space,
            })
            .ok()?;
    }
    Some(decls)
}

/// Whether the forest of two halves answers, or else the subspace that is refused, and its least point at fault.
fn judged(alloc: Global, arena: &Bump, first: u64) -> Option<Result<bool, (usize, u64)>> {
    let decls = halves(alloc, arena, first)?;
    if !is_forest(&decls) {
        return None;
    }
    match Forest::judge(alloc, &decls) {
        Ok(forest) => Some(Ok(forest.under(3, 1) && !forest.under(3, 2))),
        Err(ForestFault::NotDisjoint { sub, point, .. }) => Some(Err((sub, point))),
        Err(_) => None,
    }
}

#[test]
fn lists_make_a_forest(rt: HostRuntime) -> Result<(), Fail> {
    let bump = Bump::new(rt.alloc());
    assert_eq!(rt; judged(rt.alloc(), &bump, 5), Some(Ok(true)));
    assert_eq!(rt; judged(rt.alloc(), &bump, 4), Some(Err((1, 4))));
    Ok(())
}
