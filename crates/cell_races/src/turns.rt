//! Which nodes are not in turn at a cell: the one at the earlier place of an order has to be before the other, where they conflict.

ghost use Rattle.std.specs.Prelude.{◌≡◌, All, IfOk, OnOk, if◌then◌else◌, length, slice_set, true, ◌<◌};
ghost use Rattle.reach_marks.specs.Reached.{before_in};
ghost use Rattle.cell_races.specs.Groups.{asked, fails_at, with_node_access};
ghost use Rattle.cell_races.specs.Races.{IsTransitive};
ghost use Rattle.cell_races.specs.CellAccesses as accessed;
ghost use Rattle.cell_races.specs.Turns.{AreNoted, AreOfOneCell, IsMarked, NotesMore};
ghost use Rattle.cell_races.specs.NodeAccesses.{node_access_of};

use crate::cell_accesses::CellAccess;
use crate::frontier::Frontier;
use crate::node_accesses::node_access_of;
use crate::scan::cell_end;
use reach_marks::Reach;
use std::alloc::{AllocError, Global};

/// Takes the next access of a cell into the groups, or notes its place, if its node does not come after all that it has to come after.
fn take_or_note(
    frontier: &mut Frontier,
    reach: &Reach,
    order: &[usize],
    cell_access: &CellAccess,
    noted: &mut Vec<bool>,
) -> Result<(), AllocError>
    requires group { All (λ a. a < length reach.now.places)
        (asked frontier.old (node_access_of order.now cell_access.now)) }
    requires marked { IsMarked order.now reach.now cell_access.now }
    requires each { length noted.old.items ≡ length order.now }
    ensures groups { OnOk result (frontier.new
        ≡ (if fails_at (before_in reach.now) frontier.old (node_access_of order.now cell_access.now) then frontier.old
        else with_node_access frontier.old (node_access_of order.now cell_access.now))) }
    ensures noted { OnOk result (noted.new.items
        ≡ (if fails_at (before_in reach.now) frontier.old (node_access_of order.now cell_access.now)
        then slice_set noted.old.items cell_access.now.place true else noted.old.items)) }
{
    let node_access = node_access_of(order, cell_access);
    if frontier.fails(reach, node_access) {
        noted[cell_access.place] = true;
    } else {
        frontier.take(node_access)?;
    }
    Ok(())
}

/// Notes the places at which nodes of one cell are not in turn. What is noted is in no group, so those that are left are in turn.
fn note_cell(
    frontier: &mut Frontier,
    reach: &Reach,
    order: &[usize],
    cell_accesses: &[CellAccess],
    noted: &mut Vec<bool>,
) -> Result<(), AllocError>
    requires goes_on { IsTransitive (before_in reach.now) }
    requires marked { All (IsMarked order.now reach.now) cell_accesses.now }
    requires in_order { accessed.AreInOrder cell_accesses.now }
    requires one { AreOfOneCell cell_accesses.now }
    requires each { length noted.old.items ≡ length order.now }
    ensures { OnOk result (NotesMore (before_in reach.now) order.now cell_accesses.now
        noted.old.items noted.new.items) }
{
    frontier.clear();
    for cell_access in cell_accesses {
        take_or_note(frontier, reach, order, cell_access, noted)?;
    }
    Ok(())
}

/// The places of an order at which nodes are not in turn at some cell, so many that all others are in turn: of two that conflict, the one at the earlier place is before the other. One pass over the accesses, which are in order.
pub fn unordered_places(
    alloc: Global,
    reach: &Reach,
    order: &[usize],
    cell_accesses: &[CellAccess],
) -> Result<Vec<bool>, AllocError>
    requires goes_on { IsTransitive (before_in reach.now) }
    requires marked { All (IsMarked order.now reach.now) cell_accesses.now }
    requires in_order { accessed.AreInOrder cell_accesses.now }
    ensures { IfOk result (λ noted. AreNoted (before_in reach.now) order.now cell_accesses.now noted.items) }
{
    let mut noted = vec![in alloc; false; order.len()]?;
    let mut frontier = Frontier::new(alloc);
    let mut from = 0;
    while from < cell_accesses.len() {
        let end = cell_end(cell_accesses, from);
        note_cell(
            &mut frontier,
            reach,
            order,
            &cell_accesses[from..end],
            &mut noted,
        )?;
        from = end;
    }
    Ok(noted)
}
