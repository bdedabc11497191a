//! The race that is shown of a few recorded runs, or what their replay finds, judged by hand.

ghost use Rattle.std.specs.Prelude.{◌≡◌, IfOk, None};
ghost use Rattle.vocabulary.specs.Prelude.{graph_of};
ghost use Rattle.semantics.specs.Faults.{unmapped_fault};
ghost use Rattle.event_graph.specs.Orders.{IsOrderOf};
ghost use Rattle.point_laws.specs.Alike.{AreFirsts};
ghost use Rattle.serial_exec.specs.Kept.{AreVersionsAt};

use crate::framed_logs::log_of;
use crate::graph_tests::{graph_of, nodes_in};
use crate::values::{Written, value_of};
use bumpalo::Bump;
use event_graph::Order;
use log_decl::Log;
use point_kinds::FirstPoints;
use race_scan::{ScanEnd, SortedNodes, scan};
use region_tree::ArenaSet;
use replay::{Reads, ReplayEnd, replay};
use serial_exec::Versions;
use std::alloc::Global;
use std::test::Fail;
use value_terms::{Base, Memory};

/// What is found.
enum Found<'f> {
    /// Nodes that race, and the instance, the point and the field where they do.
    Race(usize, usize, (u32, u64, u32)),
    /// So many reads, all right.
    Right(u64),
    /// The task, the requirement, the point and the field of a read; what was got, and what was wanted.
    Differ((u32, u32, u64, u32), Written<'f>, Written<'f>),
}

/// Logs, and what is found of them.
const CASES: [(&[u8], Found<'static>); 3] = [
    // A task reads what another writes, and waits on nothing.
    (
        b"task 1\nreq 1 1 1 1 wd ex\ntask 2\nreq 2 1 1 1 ro ex\ninst 1 1 1 1 plain\nmap 1 1 1 1\nmap 2 1 1 1\nrun 1 1 -\nrun 2 2 -\n",
        Found::Race(0, 1, (1, 0, 1)),
    ),
    // Two reductions are gathered and folded in, and folded in twice.
    (
        b"task 1\nreq 1 1 1 1 red:1 ex\ntask 2\nreq 2 1 1 1 red:1 ex\ntask 3\nreq 3 1 1 1 ro ex\ninst 1 1 1 1 home\ninst 2 1 1 1 red:1\nmap 1 1 1 2\nmap 2 1 1 2\nmap 3 1 1 1\nreset 2 1 1 1 -\nrun 1 2 1\nrun 2 3 1\nfold 2 1 1 1 4 2,3\nrun 3 5 4\n",
        Found::Right(10),
    ),
    (
        b"task 1\nreq 1 1 1 1 red:1 ex\ntask 2\nreq 2 1 1 1 red:1 ex\ntask 3\nreq 3 1 1 1 ro ex\ninst 1 1 1 1 home\ninst 2 1 1 1 red:1\nmap 1 1 1 2\nmap 2 1 1 2\nmap 3 1 1 1\nreset 2 1 1 1 -\nrun 1 2 1\nrun 2 3 1\nfold 2 1 1 1 4 2,3\nfold 2 1 1 1 5 4\nrun 3 6 5\n",
        Found::Differ(
            (3, 1, 0, 1),
            (Base::Init, &[(1, 1, 1), (1, 1, 1), (1, 2, 1), (1, 2, 1)]),
            (Base::Init, &[(1, 1, 1), (1, 2, 1)]),
        ),
    ),
];

/// What a log wants at its first points.
fn versions_on<'a, P: ArenaSet<'a>>(
    alloc: Global,
    log: &Log<'a, P>,
    firsts: &FirstPoints,
) -> Result<Versions, Memory>
    ensures { IfOk result (AreVersionsAt firsts.now log.now) }
{
    let points = firsts.as_slice();
    let versions = Versions::build_on(alloc, log, points)?;
    Ok(versions)
}

/// What a log wants at all points, these among them.
fn versions_of<'a, P: ArenaSet<'a>>(
    alloc: Global,
    log: &Log<'a, P>,
    firsts: &FirstPoints,
) -> Result<Versions, Memory>
    ensures { IfOk result (AreVersionsAt firsts.now log.now) }
{
    let _points = firsts.as_slice();
    let versions = Versions::build(alloc, log)?;
    Ok(versions)
}

/// What a log wants at its first points, or at all points.
fn versions_by<'a, P: ArenaSet<'a>>(
    alloc: Global,
    log: &Log<'a, P>,
    firsts: &FirstPoints,
    by_all: bool,
) -> Result<Versions, Memory>
    ensures { IfOk result (AreVersionsAt firsts.now log.now) }
{
    if by_all {
        versions_of(alloc, log, firsts)
    } else {
        versions_on(alloc, log, firsts)
    }
}

/// Replays a log in its order, at those of its first points that are read, by what it wants there or at all points.
fn replay_by<'a, P: ArenaSet<'a>>(
    alloc: Global,
    log: &Log<'a, P>,
    order: &Order,
    firsts: &FirstPoints,
    by_all: bool,
) -> Result<Result<Reads, ReplayEnd>, Memory>
    requires mapped { unmapped_fault log.now ≡ None }
    requires order { IsOrderOf (graph_of log.now.nodes) order.now }
    requires firsts { AreFirsts log.now firsts.now }
{
    let read = firsts.read_in(alloc, log)?;
    let versions = versions_by(alloc, log, &read, by_all)?;
    Ok(replay(alloc, log, order, &versions, &read))
}

/// Whether a replay ended as a case says.
fn is_found(alloc: Global, end: Result<Reads, ReplayEnd>, found: &Found<'_>) -> Result<bool, Fail> {
    match (end, found) {
        (Ok(reads), Found::Right(count)) => Ok(reads.count == *count),
        (
            Err(
                ReplayEnd::Differ {
                    task,
                    req,
                    point,
                    field,
                    got,
                    want,
                },
            ),
            Found::Differ(read, got_there, want_there),
        ) => Ok(
            (task, req, point, field) == *read
                && got.same(&value_of(alloc, got_there)?)
                && want.same(&value_of(alloc, want_there)?),
        ),
        _ => Ok(false),
    }
}

/// Whether what is found of a log is what a case says.
fn ask<'a, P: ArenaSet<'a>>(
    alloc: Global,
    log: &Log<'a, P>,
    found: &Found<'_>,
) -> Result<bool, Fail> {
    if log.mapped().is_err() {
        return Err("a requirement that is not mapped".into());
    }
    let nodes = nodes_in(alloc, log.nodes())?;
    let graph = graph_of(alloc, nodes)?;
    let Ok(order) = graph.order(alloc) else {
        return Err("a cycle".into());
    };
    let Ok(firsts) = FirstPoints::of(alloc, log) else {
        return Err("no memory".into());
    };
    let sorted = SortedNodes {
        graph: &graph,
        order: &order,
    };
    match scan(alloc, log, &sorted, &firsts) {
        Ok(()) => {
            let (Ok(first), Ok(all)) = (
                replay_by(alloc, log, &order, &firsts, false),
                replay_by(alloc, log, &order, &firsts, true),
            ) else {
                return Err("no memory".into());
            };
            Ok(is_found(alloc, first, found)? && is_found(alloc, all, found)?)
        }
        Err(ScanEnd::Race { a, b, cell }) => match found {
            Found::Race(x, y, place) => Ok(
                (a, b, (cell.inst, cell.point, cell.field)) == (*x, *y, *place),
            ),
            _ => Ok(false),
        },
        Err(ScanEnd::Memory) => Err("no memory".into()),
    }
}

#[test]
fn races_and_replays_of_logs(rt: HostRuntime) -> Result<(), Fail> {
    let alloc = rt.alloc();
    for (k, (records, found)) in CASES.iter().enumerate() {
        let bump = Bump::new(alloc);
        let log = log_of(alloc, &bump, records, 0)?;
        let asked = ask(alloc, &log, found);
        log.let_go();
        assert!(&rt; asked?, "case {k}");
    }
    Ok(())
}
