//! The race that is shown of all cells.

ghost use Rattle.std.specs.Prelude.{◌≡◌, ◌<◌, All, IfOk, MatchOption, length};
ghost use Rattle.event_graph.specs.Orders.{IsOrderOf};
ghost use Rattle.reach_marks.specs.Reached.{before_in, AreMarksOf};
ghost use Rattle.cell_races.specs.Races.{race_in};
ghost use Rattle.cell_races.specs.NodeAccesses.{node_accesses_of};
ghost use Rattle.cell_races.specs.Ranks.{AreRanked, rank_in};
ghost use Rattle.cell_races.specs.CellAccesses.{AreInOrder, IsCellEnd};
ghost use Rattle.cell_races.specs.Clashes.{IsFree, IsShown};

use crate::access::NodeAccess;
use crate::cell_accesses::CellAccess;
use crate::cell_scan::first_race;
use crate::cell_sort::sort_cell_accesses;
use crate::frontier::Frontier;
use crate::node_accesses::list_node_accesses;
use event_graph::{Graph, Order};
use reach_marks::Reach;
use semantics::Cell;
use std::alloc::{AllocError, Global};

/// Two nodes that conflict at a cell, neither before the other.
#[derive(Clone, Copy)]
pub struct FoundRace {
    pub a: usize,
    pub b: usize,
    pub cell: Cell,
}

/// The first place after `from` of what is at another cell, or else how many accesses there are.
pub fn cell_end(cell_accesses: &[CellAccess], from: usize) -> usize
    requires { from < length cell_accesses.now }
    ensures { IsCellEnd cell_accesses.now from result }
{
    for k in from + 1..cell_accesses.len() {
        if cell_accesses[k].cell != cell_accesses[from].cell {
            return k;
        }
    }
    cell_accesses.len()
}

/// The race that is shown at one cell. The list and the groups are made anew in the room of earlier ones.
fn race_at(
    node_accesses: &mut Vec<NodeAccess>,
    frontier: &mut Frontier,
    reach: &Reach,
    order: &[usize],
    cell_accesses: &[CellAccess],
) -> Result<Option<(usize, usize)>, AllocError>
    requires ranked { AreRanked order.now reach.now }
    requires within { All (λ x. x.place < length order.now) cell_accesses.now }
    ensures { IfOk result (λ r. r ≡ race_in (before_in reach.now) (node_accesses_of order.now cell_accesses.now)) }
{
    list_node_accesses(node_accesses, order, cell_accesses)?;
    let race = first_race(frontier, reach, node_accesses.as_slice())?;
    Ok(race)
}

/// The race that is shown of accesses in order, cell by cell.
fn first_shown_race(
    alloc: Global,
    reach: &Reach,
    order: &[usize],
    cell_accesses: &[CellAccess],
) -> Result<Option<FoundRace>, AllocError>
    requires ranked { AreRanked order.now reach.now }
    requires within { All (λ x. x.place < length order.now) cell_accesses.now }
    requires in_order { AreInOrder cell_accesses.now }
    ensures { IfOk result (λ r. MatchOption r (IsFree (before_in reach.now) order.now cell_accesses.now)
        (IsShown (before_in reach.now) (rank_in reach.now) order.now cell_accesses.now)) }
{
    let mut node_accesses = Vec::new(alloc);
    let mut frontier = Frontier::new(alloc);
    let mut from = 0;
    while from < cell_accesses.len() {
        let end = cell_end(cell_accesses, from);
        let at_cell = &cell_accesses[from..end];
        if let Some((a, b)) = race_at(&mut node_accesses, &mut frontier, reach, order, at_cell)? {
            let cell = cell_accesses[from].cell;
            return Ok(Some(FoundRace { a, b, cell }));
        }
        from = end;
    }
    Ok(None)
}

/// The race that is shown of what the nodes of a graph do at cells. The time is that of a sort of the accesses, and linear in them but for that.
pub fn shown_race(
    alloc: Global,
    graph: &Graph,
    order: &Order,
    reach: &Reach,
    cell_accesses: Vec<CellAccess>,
) -> Result<Option<FoundRace>, AllocError>
    requires order { IsOrderOf graph.now order.now }
    requires reach { AreMarksOf graph.now reach.now }
    requires within { All (λ x. x.place < length order.now) cell_accesses.items }
    ensures { IfOk result (λ r. MatchOption r (IsFree (before_in reach.now) order.now cell_accesses.items)
        (IsShown (before_in reach.now) (rank_in reach.now) order.now cell_accesses.items)) }
{
    let mut sorted = cell_accesses;
    sort_cell_accesses(&mut sorted);
    let clash = first_shown_race(alloc, reach, order.as_slice(), sorted.as_slice())?;
    Ok(clash)
}
