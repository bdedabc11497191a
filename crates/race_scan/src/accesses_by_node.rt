//! What the nodes of a log do at cells.

ghost use Rattle.std.specs.Prelude.{◌≡◌, ◌<◌, ◌++◌, true, All, IfOk, IfSome, OnOk, flat_map, length};
ghost use Rattle.cell_races.specs.CellAccesses.{cell_accesses_of};
ghost use Rattle.inst_steps.specs.FieldMoves.{field_moves_at};
ghost use Rattle.inst_steps.specs.Stepping.{moves_at};
ghost use Rattle.race_scan.specs.Gathered.{cell_accesses_before, field_accesses_before};

use cell_races::{CellAccess, push_cell_accesses};
use cut_logs::CutLog;
use inst_steps::{push_field_moves, steps_of};
use region_tree::ArenaSet;
use semantics::Move;
use std::alloc::{AllocError, Global};

/// Adds what a node does at cells, where it stands at a place of the replay order.
fn push_node<'a, P: ArenaSet<'a>>(
    cell_accesses: &mut Vec<CellAccess>,
    log: &CutLog<'_, 'a, '_, P>,
    place: usize,
    node: usize,
) -> Result<(), AllocError>
    requires { node < length log.now.nodes }
    ensures { OnOk result (cell_accesses.new.items
        ≡ cell_accesses.old.items ++ flat_map (cell_accesses_of place) (moves_at log.now node)) }
{
    for step in steps_of(log, node) {
        push_cell_accesses(cell_accesses, place, step)?;
    }
    Ok(())
}

/// How many accesses a node may have on average where those at cells are gathered before those by fields.
const FEW_EACH: usize = 16;

/// Adds what a node does at cells, as long as there are no more than so many, and tells whether all was added.
fn push_few<'a, P: ArenaSet<'a>>(
    cell_accesses: &mut Vec<CellAccess>,
    most: usize,
    log: &CutLog<'_, 'a, '_, P>,
    place: usize,
    node: usize,
) -> Result<bool, AllocError>
    requires { node < length log.now.nodes }
    ensures { IfOk result (λ all. all ≡ true → cell_accesses.new.items
        ≡ cell_accesses.old.items ++ flat_map (cell_accesses_of place) (moves_at log.now node)) }
{
    for step in steps_of(log, node) {
        if cell_accesses.len() >= most {
            return Ok(false);
        }
        push_cell_accesses(cell_accesses, place, step)?;
    }
    Ok(true)
}

/// What all nodes do at cells, node by node in replay order, if that is little.
pub(crate) fn few_cell_accesses<'a, P: ArenaSet<'a>>(
    alloc: Global,
    log: &CutLog<'_, 'a, '_, P>,
    order: &[usize],
) -> Result<Option<Vec<CellAccess>>, AllocError>
    requires { All (λ k. k < length log.now.nodes) order.now }
    ensures { IfOk result (λ few. IfSome few (λ v. v.items
        ≡ cell_accesses_before log.now order.now (length order.now))) }
{
    let most = order.len().saturating_mul(FEW_EACH);
    let mut cell_accesses = Vec::new(alloc);
    for place in 0..order.len() {
        if !push_few(&mut cell_accesses, most, log, place, order[place])? {
            return Ok(None);
        }
    }
    Ok(Some(cell_accesses))
}

/// What all nodes do at cells, node by node in replay order.
pub(crate) fn cell_accesses_of<'a, P: ArenaSet<'a>>(
    alloc: Global,
    log: &CutLog<'_, 'a, '_, P>,
    order: &[usize],
) -> Result<Vec<CellAccess>, AllocError>
    requires { All (λ k. k < length log.now.nodes) order.now }
    ensures { IfOk result (λ v. v.items ≡ cell_accesses_before log.now order.now (length order.now)) }
{
    let mut cell_accesses = Vec::new(alloc);
    for place in 0..order.len() {
        push_node(&mut cell_accesses, log, place, order[place])?;
    }
    Ok(cell_accesses)
}

/// Adds what a node would do at cells if each space that has points had point 0 alone. Its moves are listed in the room of those of earlier nodes.
fn push_fields_of<'a, P: ArenaSet<'a>>(
    cell_accesses: &mut Vec<CellAccess>,
    moves: &mut Vec<Move>,
    log: &CutLog<'_, 'a, '_, P>,
    place: usize,
    node: usize,
) -> Result<(), AllocError>
    requires { node < length log.now.nodes }
    ensures { OnOk result (cell_accesses.new.items
        ≡ cell_accesses.old.items ++ flat_map (cell_accesses_of place) (field_moves_at log.now node)) }
{
    moves.clear();
    push_field_moves(moves, log, node)?;
    for step in moves.as_slice() {
        push_cell_accesses(cell_accesses, place, *step)?;
    }
    Ok(())
}

/// What all nodes would do at cells if each space that has points had point 0 alone, so that each instance had a single cell for each of its fields.
pub(crate) fn field_accesses_of<'a, P: ArenaSet<'a>>(
    alloc: Global,
    log: &CutLog<'_, 'a, '_, P>,
    order: &[usize],
) -> Result<Vec<CellAccess>, AllocError>
    requires { All (λ k. k < length log.now.nodes) order.now }
    ensures { IfOk result (λ v. v.items ≡ field_accesses_before log.now order.now (length order.now)) }
{
    let mut cell_accesses = Vec::new(alloc);
    let mut moves = Vec::new(alloc);
    for place in 0..order.len() {
        push_fields_of(&mut cell_accesses, &mut moves, log, place, order[place])?;
    }
    Ok(cell_accesses)
}
