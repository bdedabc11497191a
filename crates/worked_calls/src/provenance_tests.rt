//! Where reads of a few recorded runs came from, found by hand.

ghost use Rattle.std.specs.Prelude.{◌≡◌, None};
ghost use Rattle.vocabulary.specs.Prelude.{graph_of, IsRaceFree};
ghost use Rattle.semantics.specs.Faults.{unmapped_fault};
ghost use Rattle.event_graph.specs.Orders.{IsOrderOf};

use crate::framed_logs::log_of;
use crate::graph_tests::{graph_of, nodes_in};
use bumpalo::Bump;
use event_graph::Order;
use log_decl::Log;
use point_kinds::FirstPoints;
use provenance::{TraceEnd, trace};
use race_scan::{SortedNodes, scan};
use region_tree::ArenaSet;
use semantics::{Ask, Link, LinkKind};
use std::alloc::Global;
use std::test::Fail;

/// A task, the number of a requirement, a point and a field.
type Read = (u32, u32, u64, u32);

/// Of each link the kind, the event, the instance, and how often something was added.
type Links<'f> = &'f [(LinkKind, u32, u32, u32)];

/// Logs, a read of each, and its links, or `None` where there is no such read.
const CASES: [(&[u8], Read, Option<Links<'static>>); 13] = [
    // The copy is older than the second write; and it is newer.
    (
        b"task 1\nreq 1 1 1 1 wd ex\ntask 2\nreq 2 1 1 1 rw ex\ntask 3\nreq 3 1 1 1 ro ex\ninst 1 1 1 1 plain\ninst 2 1 1 1 plain\nmap 1 1 1 1\nmap 2 1 1 1\nmap 3 1 1 2\nrun 1 1 -\ncopy 1 2 1 1 2 1\nrun 2 3 2\nrun 3 4 3\n",
        (3, 1, 0, 1),
        Some(&[(LinkKind::Copy, 2, 2, 0), (LinkKind::Write, 1, 1, 0)]),
    ),
    (
        b"task 1\nreq 1 1 1 1 wd ex\ntask 2\nreq 2 1 1 1 rw ex\ntask 3\nreq 3 1 1 1 ro ex\ninst 1 1 1 1 plain\ninst 2 1 1 1 plain\nmap 1 1 1 1\nmap 2 1 1 1\nmap 3 1 1 2\nrun 1 1 -\nrun 2 2 1\ncopy 1 2 1 1 3 2\nrun 3 4 3\n",
        (3, 1, 9, 1),
        Some(&[(LinkKind::Copy, 3, 2, 0), (LinkKind::Write, 2, 1, 0)]),
    ),
    // Two reductions are gathered, and folded in once.
    (
        b"task 1\nreq 1 1 1 1 red:1 ex\ntask 2\nreq 2 1 1 1 red:1 ex\ntask 3\nreq 3 1 1 1 ro ex\ninst 1 1 1 1 home\ninst 2 1 1 1 red:1\nmap 1 1 1 2\nmap 2 1 1 2\nmap 3 1 1 1\nreset 2 1 1 1 -\nrun 1 2 1\nrun 2 3 1\nfold 2 1 1 1 4 2,3\nrun 3 5 4\n",
        (3, 1, 0, 1),
        Some(&[(LinkKind::Start, 0, 1, 1)]),
    ),
    // Two tasks reduce to where a third wrote, in any order.
    (
        b"task 1\nreq 1 1 1 1 wd ex\ntask 2\nreq 2 1 1 1 red:1 ex\ntask 3\nreq 3 1 1 1 red:1 ex\ntask 4\nreq 4 1 1 1 ro ex\ninst 1 1 1 1 plain\nmap 1 1 1 1\nmap 2 1 1 1\nmap 3 1 1 1\nmap 4 1 1 1\nrun 1 10 -\nrun 2 20 10\nrun 3 30 10\nrun 4 40 20,30\n",
        (4, 1, 3, 1),
        Some(&[(LinkKind::Write, 10, 1, 2)]),
    ),
    // A value goes through three instances. What is added to the second before it is copied on is told there, and what is added later is not.
    (
        b"task 1\nreq 1 1 1 1 wd ex\ntask 2\nreq 2 1 1 1 ro ex\ninst 1 1 1 1 plain\ninst 2 1 1 1 plain\ninst 3 1 1 1 plain\nmap 1 1 1 1\nmap 2 1 1 3\nrun 1 1 -\ncopy 1 2 1 1 2 1\ncopy 2 3 1 1 3 2\nrun 2 4 3\n",
        (2, 1, 5, 1),
        Some(&[
            (LinkKind::Copy, 3, 3, 0),
            (LinkKind::Copy, 2, 2, 0),
            (LinkKind::Write, 1, 1, 0),
        ]),
    ),
    (
        b"task 1\nreq 1 1 1 1 wd ex\ntask 2\nreq 2 1 1 1 red:1 ex\ntask 3\nreq 3 1 1 1 ro ex\ntask 4\nreq 4 1 1 1 red:1 ex\ninst 1 1 1 1 plain\ninst 2 1 1 1 plain\ninst 3 1 1 1 plain\nmap 1 1 1 1\nmap 2 1 1 2\nmap 3 1 1 3\nmap 4 1 1 2\nrun 1 1 -\ncopy 1 2 1 1 2 1\nrun 2 3 2\ncopy 2 3 1 1 4 3\nrun 4 5 4\nrun 3 6 4\n",
        (3, 1, 5, 1),
        Some(&[
            (LinkKind::Copy, 4, 3, 0),
            (LinkKind::Copy, 2, 2, 1),
            (LinkKind::Write, 1, 1, 0),
        ]),
    ),
    // A constant is put at one field, and the other holds what it held at the start.
    (
        b"task 1\nreq 1 1 1 1,2 ro ex\ninst 1 1 1 1,2 home\nmap 1 1 1,2 1\nput 1 1 2 7 5 -\nrun 1 6 5\n",
        (1, 1, 4, 2),
        Some(&[(LinkKind::Put, 5, 1, 0)]),
    ),
    (
        b"task 1\nreq 1 1 1 1,2 ro ex\ninst 1 1 1 1,2 home\nmap 1 1 1,2 1\nput 1 1 2 7 5 -\nrun 1 6 5\n",
        (1, 1, 4, 1),
        Some(&[(LinkKind::Start, 0, 1, 0)]),
    ),
    // The serial order turns two tasks that program order fixes.
    (
        b"task 1\nreq 1 1 1 1 wd ex\ntask 2\nreq 2 1 1 1 ro ex\nserial 2 1\ninst 1 1 1 1 plain\nmap 1 1 1 1\nmap 2 1 1 1\nrun 1 1 -\nrun 2 2 1\n",
        (2, 1, 0, 1),
        Some(&[(LinkKind::Write, 1, 1, 0)]),
    ),
    // A requirement is asked for at a point and at a field that it does not have; it writes alone; and there is none.
    (
        b"task 1\nreq 1 1 2 1 ro ex\ninst 1 1 1 1 home\nmap 1 1 1 1\nrun 1 1 -\n",
        (1, 1, 5, 1),
        None,
    ),
    (
        b"task 1\nreq 1 1 2 1 ro ex\ninst 1 1 1 1 home\nmap 1 1 1 1\nrun 1 1 -\n",
        (1, 1, 4, 2),
        None,
    ),
    (
        b"task 1\nreq 1 1 1 1 wd ex\ninst 1 1 1 1 plain\nmap 1 1 1 1\nrun 1 1 -\n",
        (1, 1, 0, 1),
        None,
    ),
    (
        b"task 1\nreq 1 1 1 1 ro ex\ninst 1 1 1 1 home\nmap 1 1 1 1\nrun 1 1 -\n",
        (1, 2, 0, 1),
        None,
    ),
];

/// Traces a read of a log.
fn traced<'a, P: ArenaSet<'a>>(
    alloc: Global,
    log: &Log<'a, P>,
    order: &Order,
    read: Read,
) -> Result<Vec<Link>, TraceEnd>
    requires mapped { unmapped_fault log.now ≡ None }
    requires order { IsOrderOf (graph_of log.now.nodes) order.now }
    requires free { IsRaceFree log.now }
{
    let (task, req, point, field) = read;
    trace(
        alloc,
        log,
        order,
        &Ask {
            task,
            req,
            point,
            field,
        },
    )
}

/// Whether links are those of a case.
fn are_links(found: &[Link], links: Links<'_>) -> bool {
    found.len() == links.len()
        && found.iter().zip(links).all(|(link, row)| (link.kind, link.done, link.inst, link.adds)
            == *row)
}

/// Whether what is traced is what a case says.
fn is_found(links: Result<Vec<Link>, TraceEnd>, found: Option<Links<'_>>) -> Result<bool, Fail> {
    match (links, found) {
        (Ok(links), Some(rows)) => Ok(are_links(links.as_slice(), rows)),
        (Err(TraceEnd::NoRead), None) => Ok(true),
        (Err(TraceEnd::Memory), _) => Err("no memory".into()),
        _ => Ok(false),
    }
}

/// Whether a log has the links that a case says.
fn ask<'a, P: ArenaSet<'a>>(
    alloc: Global,
    log: &Log<'a, P>,
    read: Read,
    found: Option<Links<'_>>,
) -> Result<bool, Fail> {
    if log.mapped().is_err() {
        return Err("a requirement that is not mapped".into());
    }
    let nodes = nodes_in(alloc, log.nodes())?;
    let graph = graph_of(alloc, nodes)?;
    let Ok(order) = graph.order(alloc) else {
        return Err("a cycle".into());
    };
    let Ok(firsts) = FirstPoints::of(alloc, log) else {
        return Err("no memory".into());
    };
    let sorted = SortedNodes {
        graph: &graph,
        order: &order,
    };
    match scan(alloc, log, &sorted, &firsts) {
        Ok(()) => is_found(traced(alloc, log, &order, read), found),
        Err(_) => Err("a race".into()),
    }
}

#[test]
fn links_of_reads(rt: HostRuntime) -> Result<(), Fail> {
    let alloc = rt.alloc();
    for (k, (records, read, found)) in CASES.iter().enumerate() {
        let bump = Bump::new(alloc);
        let log = log_of(alloc, &bump, records, 0)?;
        let asked = ask(alloc, &log, *read, *found);
        log.let_go();
        assert!(&rt; asked?, "case {k}");
    }
    Ok(())
}
