//! What nodes do at cells.

ghost use Rattle.std.specs.Prelude.{◌≡◌, [], ◌∷◌, ◌++◌, OnOk, OnErr};
ghost use Rattle.cell_races.specs.CellAccesses.{cell_access, cell_accesses_of, both_accessed};

use crate::access::Access;
use semantics::{Cell, Move};
use std::alloc::AllocError;

/// What the node at a place of the replay order does at a cell.
#[derive(Clone, Copy)]
pub struct CellAccess {
    pub cell: Cell,
    pub place: usize,
    pub access: Access,
}

/// Adds what a move does that takes one cell to another.
fn push_both(
    cell_accesses: &mut Vec<CellAccess>,
    place: usize,
    from: Cell,
    to: Cell,
    access: Access,
) -> Result<(), AllocError>
    ensures ok { OnOk result (cell_accesses.new.items ≡ cell_accesses.old.items ++ both_accessed place from to access) }
    ensures err { OnErr result (cell_accesses.new.items ≡ cell_accesses.old.items) }
{
    cell_accesses.reserve(2)?;
    if from == to {
        let access = Access::Writes;
        cell_accesses.push(CellAccess {
            cell: to,
            place,
            access,
        })?;
    } else {
        let reads = Access::Reads;
        cell_accesses.push(CellAccess {
            cell: from,
            place,
            access: reads,
        })?;
        cell_accesses.push(CellAccess {
            cell: to,
            place,
            access,
        })?;
    }
    Ok(())
}

/// Adds what a move does at one cell.
fn push_one(
    cell_accesses: &mut Vec<CellAccess>,
    place: usize,
    cell: Cell,
    access: Access,
) -> Result<(), AllocError>
    ensures ok { OnOk result (cell_accesses.new.items ≡ cell_accesses.old.items ++ cell_access place cell access ∷ []) }
    ensures err { OnErr result (cell_accesses.new.items ≡ cell_accesses.old.items) }
{
    cell_accesses.push(CellAccess {
        cell,
        place,
        access,
    })?;
    Ok(())
}

/// Adds what a move does, by the node at a place of the replay order.
pub fn push_cell_accesses(
    cell_accesses: &mut Vec<CellAccess>,
    place: usize,
    step: Move,
) -> Result<(), AllocError>
    ensures ok { OnOk result (cell_accesses.new.items ≡ cell_accesses.old.items ++ cell_accesses_of place step) }
    ensures err { OnErr result (cell_accesses.new.items ≡ cell_accesses.old.items) }
{
    match step {
        Move::Read { cell, .. } => push_one(cell_accesses, place, cell, Access::Reads),
        Move::Reduce { cell, op, .. } => push_one(cell_accesses, place, cell, Access::Folds(op)),
        Move::Write { cell, .. } => push_one(cell_accesses, place, cell, Access::Writes),
        Move::Put { cell, .. } => push_one(cell_accesses, place, cell, Access::Writes),
        Move::Reset { cell } => push_one(cell_accesses, place, cell, Access::Writes),
        Move::Copy { from, to } => push_both(cell_accesses, place, from, to, Access::Writes),
        Move::Fold { op, from, to } => push_both(cell_accesses, place, from, to, Access::Folds(op)),
    }
}
