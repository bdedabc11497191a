//! What is asked of accesses in order: whether each node comes after all with which it conflicts.

ghost use Rattle.std.specs.Prelude.{◌<◌, All, IfOk, IfSome, OnOk, length};
ghost use Rattle.cell_races.specs.CellAccesses.{AreInOrder};
ghost use Rattle.cell_races.specs.Chained.{AreInTurn, AreInTurnOf, IsFreeOf};
ghost use Rattle.cell_races.specs.Questions.{AreAnswered, asked_in};

use crate::access::NodeAccess;
use crate::cell_accesses::CellAccess;
use crate::node_accesses::{list_access_by_access, list_node_accesses};
use crate::questions::{Asking, Questions};
use crate::scan::cell_end;
use event_graph::Graph;
use std::alloc::{AllocError, Global};

/// How many waits are looked at for each access, on average at most, where short chains are looked for.
const STEPS_EACH: usize = 64;

/// Asks of the nodes of a cell, in replay order, whether each comes after all with which it conflicts.
fn ask_of_cell(
    asking: &mut Asking,
    graph: &Graph,
    node_accesses: &[NodeAccess],
    steps: &mut usize,
) -> Result<(), AllocError>
    requires { All (λ a. a.node < length graph.now) node_accesses.now }
    ensures { OnOk result (AreAnswered graph.now asking.new.asked
        → AreAnswered graph.now asking.old.asked × AreInTurn graph.now node_accesses.now) }
{
    asking.begin_cell();
    for node_access in node_accesses {
        asking.ask(graph, *node_access, steps)?;
        asking.take(*node_access)?;
    }
    Ok(())
}

/// What has to be so that no two nodes race, of accesses in order, but for what short chains show.
pub(crate) fn questions_of(
    alloc: Global,
    graph: &Graph,
    order: &[usize],
    cell_accesses: &[CellAccess],
) -> Result<Questions, AllocError>
    requires nodes { All (λ k. k < length graph.now) order.now }
    requires within { All (λ x. x.place < length order.now) cell_accesses.now }
    requires in_order { AreInOrder cell_accesses.now }
    ensures { IfOk result (λ questions. AreAnswered graph.now (asked_in questions)
        → IsFreeOf graph.now order.now cell_accesses.now) }
{
    let mut steps = cell_accesses.len().saturating_mul(STEPS_EACH);
    let mut asking = Asking::new(alloc);
    let mut node_accesses = Vec::new(alloc);
    let mut from = 0;
    while from < cell_accesses.len() {
        let end = cell_end(cell_accesses, from);
        list_node_accesses(&mut node_accesses, order, &cell_accesses[from..end])?;
        ask_of_cell(&mut asking, graph, node_accesses.as_slice(), &mut steps)?;
        from = end;
    }
    Ok(asking.finish())
}

/// What has to be so that what conflicts at a cell is done in the order of its places, of accesses in order, but for what short chains show. Nothing is told where a place has no node.
pub(crate) fn turns_of(
    alloc: Global,
    graph: &Graph,
    order: &[usize],
    cell_accesses: &[CellAccess],
) -> Result<Option<Questions>, AllocError>
    requires { AreInOrder cell_accesses.now }
    ensures { IfOk result (λ asked. IfSome asked (λ questions. AreAnswered graph.now (asked_in questions)
        → AreInTurnOf graph.now order.now cell_accesses.now)) }
{
    let mut steps = cell_accesses.len().saturating_mul(STEPS_EACH);
    let mut asking = Asking::new(alloc);
    let mut node_accesses = Vec::new(alloc);
    let mut from = 0;
    while from < cell_accesses.len() {
        let end = cell_end(cell_accesses, from);
        let at_cell = &cell_accesses[from..end];
        let are_nodes = list_access_by_access(&mut node_accesses, graph, order, at_cell)?;
        if !are_nodes {
            return Ok(None);
        }
        ask_of_cell(&mut asking, graph, node_accesses.as_slice(), &mut steps)?;
        from = end;
    }
    Ok(Some(asking.finish()))
}
