//! The orders and the cycles of a few graphs, which nodes are before which, and which waits others imply.

ghost use Rattle.std.specs.Prelude.{◌≡◌, IfOk};
ghost use Rattle.vocabulary.specs.Prelude.{graph_of};

use event_graph::{Graph, NodeIn, Stuck, are_linked};
use reach_marks::Reach;
use semantics::LogNode;
use spare_waits::{SpareList, spare};
use spy_words::Nums;
use std::alloc::Global;
use std::process::Abort;
use std::test::Fail;

/// Nodes: the event of each, and the events that it waits on.
type Rows = &'static [(u32, &'static [u32])];

/// The nodes of these rows.
fn nodes_of(alloc: Global, rows: Rows) -> Result<Vec<NodeIn>, Fail> {
    let mut nodes = Vec::new(alloc);
    for (done, waits) in rows {
        let waits = Nums::from_slice(alloc, waits)?;
        nodes.push(NodeIn { done: *done, waits })?;
    }
    Ok(nodes)
}

/// The nodes of a log, as far as order goes.
pub fn nodes_in(alloc: Global, nodes: &[LogNode]) -> Result<Vec<NodeIn>, Fail>
    ensures { IfOk result (λ list. list.items ≡ graph_of nodes.now) }
{
    let mut list = Vec::new(alloc);
    for node in nodes {
        let waits = Nums::from_slice(alloc, node.waits.as_slice())?;
        list.push(NodeIn {
            done: node.done,
            waits,
        })?;
    }
    Ok(list)
}

/// The graph of these nodes.
pub fn graph_of(alloc: Global, nodes: Vec<NodeIn>) -> Result<Graph, Fail>
    ensures { IfOk result (λ graph. graph ≡ nodes.items) }
{
    let Ok(linked) = are_linked(alloc, nodes.as_slice()) else {
        return Err("no memory".into());
    };
    if nodes.len() >= 1 << 32 || !linked {
        return Err("no graph".into());
    }
    match Graph::build(alloc, nodes) {
        Ok(graph) => Ok(graph),
        Err(_) => Err("no memory".into()),
    }
}

/// Nodes, with their order or the events of the cycle that is shown.
const CASES: [(Rows, Result<&[usize], &[u32]>); 3] = [
    // Node 2 meets the wait of node 0, which then goes before node 3, though that could be taken earlier.
    (
        &[(10, &[30]), (20, &[]), (30, &[]), (40, &[20])],
        Ok(&[1, 2, 0, 3]),
    ),
    // A stuck node that lies on no cycle.
    (&[(10, &[20]), (20, &[20])], Err(&[20])),
    // Two cycles. The walk goes from node 0 to 4, 2 and 3, and to 4 again.
    (
        &[
            (10, &[50]),
            (20, &[20]),
            (30, &[40]),
            (40, &[50]),
            (50, &[30]),
        ],
        Err(&[30, 50, 40]),
    ),
];

#[test]
fn orders_and_cycles(rt: HostRuntime) -> Result<(), Fail> {
    let alloc = rt.alloc();
    for (rows, want) in CASES {
        let graph = graph_of(alloc, nodes_of(alloc, rows)?)?;
        match (graph.order(alloc), want) {
            (Ok(order), Ok(nodes)) => assert_eq!(rt; order.as_slice(), nodes),
            (Err(Stuck::Cycle(events)), Err(cycle)) => assert_eq!(rt; events.as_slice(), cycle),
            _ => return Err("an order in place of a cycle, or a cycle in place of an order".into()),
        }
    }
    let unlinked = nodes_of(alloc, &[(1, &[2])])?;
    assert!(rt; are_linked(alloc, unlinked.as_slice()).ok() == Some(false));
    let graph = graph_of(
        alloc,
        nodes_of(alloc, &[(30, &[20, 10, 20]), (20, &[10]), (10, &[])])?,
    )?;
    if graph.len() == 3 {
        let waits = graph.waits_of(alloc, 0).ok().ok_or("no memory")?;
        assert_eq!(rt; waits.as_slice(), [1, 2, 1].as_slice());
    }
    Ok(())
}

/// The spare waits of a graph.
fn spare_in(alloc: Global, graph: &Graph) -> Result<SpareList, Fail> {
    let Ok(order) = graph.order(alloc) else {
        return Err("a cycle".into());
    };
    let Ok(reach) = Reach::build(alloc, graph, &order) else {
        return Err("no memory".into());
    };
    match spare(alloc, graph, &order, &reach) {
        Ok(list) => Ok(list),
        Err(_) => Err("no memory".into()),
    }
}

/// Nodes, with their spare waits: the node of each, and the place in its list.
const SPARE: [(Rows, &[(usize, usize)]); 4] = [
    // A wait that nothing implies, and the same event twice.
    (&[(1, &[]), (2, &[1]), (3, &[2, 2])], &[(2, 1)]),
    // A wait that another implies, listed before it or after it.
    (
        &[(1, &[]), (2, &[1]), (3, &[2]), (4, &[1, 3]), (5, &[3, 1])],
        &[(3, 0), (4, 1)],
    ),
    // More waits than are joined one by one; all but the last are implied.
    (
        &[
            (1, &[]),
            (2, &[1]),
            (3, &[1, 1, 1, 1, 1, 1, 1, 1, 1, 1, 1, 1, 1, 1, 1, 1, 2]),
            (4, &[2, 3]),
        ],
        &[
            (2, 0),
            (2, 1),
            (2, 2),
            (2, 3),
            (2, 4),
            (2, 5),
            (2, 6),
            (2, 7),
            (2, 8),
            (2, 9),
            (2, 10),
            (2, 11),
            (2, 12),
            (2, 13),
            (2, 14),
            (2, 15),
            (3, 0),
        ],
    ),
    // Node order is not replay order.
    (&[(4, &[1, 3]), (3, &[2]), (2, &[1]), (1, &[])], &[(0, 0)]),
];

/// Asks for just these waits.
fn ask_for(rt: &impl Abort, list: &SpareList, want: &[(usize, usize)]) -> Result<(), Fail> {
    assert_eq!(rt; list.len(), want.len());
    for (i, (node, k)) in want.iter().enumerate() {
        let Some(wait) = list.at(i) else {
            return Err("a shorter list".into());
        };
        assert_eq!(rt; (wait.node, wait.k), (*node, *k));
    }
    Ok(())
}

#[test]
fn waits_that_others_imply(rt: HostRuntime) -> Result<(), Fail> {
    let alloc = rt.alloc();
    for (rows, want) in SPARE {
        let graph = graph_of(alloc, nodes_of(alloc, rows)?)?;
        let list = spare_in(alloc, &graph)?;
        ask_for(&rt, &list, want)?;
    }
    Ok(())
}

#[test]
fn nodes_of_two_blocks(rt: HostRuntime) -> Result<(), Fail> {
    let alloc = rt.alloc();
    let mut nodes = Vec::new(alloc);
    for done in 0..2048u32 {
        let mut waits = Vec::new(alloc);
        if done > 0 {
            waits.push(done.saturating_sub(1))?;
        }
        let waits = Nums::from_slice(alloc, waits.as_slice())?;
        nodes.push(NodeIn { done, waits })?;
    }
    let graph = graph_of(alloc, nodes)?;
    let Ok(order) = graph.order(alloc) else {
        return Err("a cycle".into());
    };
    let Ok(reach) = Reach::build(alloc, &graph, &order) else {
        return Err("no memory".into());
    };
    for (a, b, is_before) in [(0, 2047, true), (1023, 1024, true), (1024, 1023, false)] {
        if a < reach.len() && b < reach.len() {
            assert_eq!(rt; reach.before(a, b), is_before, "{a} and {b}");
        }
    }
    let (group, count) = ([0, 1023, 1500, 1499].as_slice(), reach.len());
    if count <= 1500 || !group.iter().all(|a| *a < count) {
        return Err("too few nodes".into());
    }
    assert_eq!(rt; reach.first_not_before(group, 1500), Some(2));
    assert_eq!(rt; reach.mixed(), 2046);
    Ok(())
}
