//! Which pairs of items of a log interfere, how, and where, found by hand.

use crate::framed_logs::log_of;
use bumpalo::Bump;
use interference::{pairs, serial_ok, task_pair_count};
use log_decl::Log;
use privilege::Kind;
use region_tree::ArenaSet;
use std::alloc::Global;
use std::process::Abort;
use std::test::Fail;

/// Reductions by one operator and by two, and tasks that ask for the same and read; the serial order turns two of them.
const RECORDS: &[u8] =
    b"task 1\nreq 1 2 2 2 red:1 ex\ntask 2\nreq 2 2 2 2 red:1 at\ntask 3\nreq 3 2 2 2 red:2 at\ntask 4\nreq 4 1 1 1 ro ex\ntask 5\nreq 5 1 1 1 ro ex\nfill 6 1 3 1 7\nserial 3 1 2 4 5 6\n";

/// The pairs, each by its items and its kind, with the tree, the point and the field of its least place.
const PAIRS: [(usize, usize, Kind, (u32, u64, u32)); 4] = [
    (0, 2, Kind::Before, (2, 0, 2)),
    (1, 2, Kind::Turn, (2, 0, 2)),
    (3, 5, Kind::Before, (1, 5, 1)),
    (4, 5, Kind::Before, (1, 5, 1)),
];

/// Asks for all of the log.
fn ask<'a, 's, P: ArenaSet<'a>>(
    rt: &impl Abort,
    alloc: Global,
    log: &Log<'a, P>,
) -> Result<(), &'s str> {
    let Ok(uses) = log.uses(alloc) else {
        return Err("no memory");
    };
    let asked = log.asked(&uses);
    let mut found = pairs(&asked);
    for want in &PAIRS {
        let pair = found.next().ok_or("too few pairs")?;
        let place = (pair.place.tree, pair.place.point, pair.place.field);
        assert!(rt; (pair.a, pair.b, pair.kind, place) == *want);
    }
    assert!(rt; found.next().is_none());
    let stretch = pairs(&asked).next_stretch().ok_or("no stretch")?;
    assert_eq!(rt; (stretch.a, stretch.from, stretch.to), (0, 2, 3));
    let broken = serial_ok(alloc, log)
        .err()
        .ok_or("no pair against the serial order")?;
    assert_eq!(rt; (broken.a, broken.b), (0, 2));
    if log.items().len() >= 1 << 32 {
        return Err("too many items");
    }
    assert_eq!(rt; task_pair_count(&asked), 2);
    Ok(())
}

#[test]
fn pairs_of_a_log(rt: HostRuntime) -> Result<(), Fail> {
    let bump = Bump::new(rt.alloc());
    let log = log_of(rt.alloc(), &bump, RECORDS, 5)?;
    let asked = ask(&rt, rt.alloc(), &log);
    log.let_go();
    Ok(asked?)
}
