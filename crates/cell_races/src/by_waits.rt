//! Whether no two nodes race, or all are in turn, as far as chains of waits are found that show it.

ghost use Rattle.std.specs.Prelude.{◌≡◌, ◌<◌, All, IfOk, length, true};
ghost use Rattle.std.specs.List.Sorted.{IsPermutation};
ghost use Rattle.event_graph.specs.Orders.{IsOrderOf};
ghost use Rattle.cell_races.specs.CellAccesses.{AreInOrder};
ghost use Rattle.cell_races.specs.Chained.{AreInTurnOf, IsFreeOf};

use crate::answers::are_answered;
use crate::asking::{questions_of, turns_of};
use crate::cell_accesses::CellAccess;
use crate::cell_sort::sort_cell_accesses;
use crate::sorted_nodes::SortedNodes;
use event_graph::{Graph, Order};
use std::alloc::{AllocError, Global};

/// Whether chains of waits show that no two nodes race, of what they do at cells. What short chains do not tell is gathered, and then answered block by block of the places of the order: the marks of one block of 1,024 are there at a time, and only as far as they are asked for. What is done is put in the order of cells.
pub fn are_free_by_waits(
    alloc: Global,
    graph: &Graph,
    order: &Order,
    cell_accesses: &mut Vec<CellAccess>,
) -> Result<bool, AllocError>
    requires order { IsOrderOf graph.now order.now }
    requires within { All (λ x. x.place < length order.now) cell_accesses.old.items }
    ensures free { IfOk result (λ free. free ≡ true → IsFreeOf graph.now order.now cell_accesses.old.items) }
    ensures same { IsPermutation cell_accesses.old.items cell_accesses.new.items }
{
    sort_cell_accesses(cell_accesses);
    let questions = questions_of(alloc, graph, order.as_slice(), cell_accesses.as_slice())?;
    are_answered(alloc, graph, order, &questions)
}

/// Whether chains of waits show that what conflicts at a cell is done in the order of its places: the node at the earlier one is before the other. The accesses are in order. What short chains do not tell is answered block by block of the places of the replay order.
pub fn are_in_turn_by_waits(
    alloc: Global,
    sorted: &SortedNodes<'_>,
    order: &[usize],
    cell_accesses: &[CellAccess],
) -> Result<bool, AllocError>
    requires { AreInOrder cell_accesses.now }
    ensures { IfOk result (λ turned. turned ≡ true
        → AreInTurnOf sorted.now.graph.now order.now cell_accesses.now) }
{
    match turns_of(alloc, sorted.graph, order, cell_accesses)? {
        Some(questions) => are_answered(alloc, sorted.graph, sorted.order, &questions),
        None => Ok(false),
    }
}
