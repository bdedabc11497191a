//! The steps of a replay at a point and a field, as a list.

ghost use Rattle.std.specs.Prelude.{◌≡◌, ◌<◌, ◌++◌, All, IfOk, OnOk, length};
ghost use Rattle.point_laws.specs.Alike.{target};
ghost use Rattle.provenance.specs.Listing.{kept_of, taken_by, taken_before};

use cut_logs::CutLog;
use inst_steps::steps_of;
use region_tree::ArenaSet;
use semantics::{Cell, Move};
use std::alloc::{AllocError, Global};

/// A step: the position of its node, and what it does.
#[derive(Clone, Copy)]
pub(crate) struct Taken {
    pub(crate) node: usize,
    pub(crate) step: Move,
}

/// The cell that a move reads or changes: of two, the one that it changes.
fn target(step: &Move) -> Cell
    ensures { result ≡ target step.now }
{
    match *step {
        Move::Read { cell, .. } => cell,
        Move::Write { cell, .. } => cell,
        Move::Reduce { cell, .. } => cell,
        Move::Copy { to, .. } => to,
        Move::Put { cell, .. } => cell,
        Move::Reset { cell } => cell,
        Move::Fold { to, .. } => to,
    }
}

/// Adds a step, if it is at the field.
fn push_step(taken: &mut Vec<Taken>, field: u32, node: usize, step: Move) -> Result<(), AllocError>
    ensures { OnOk result (taken.new.items ≡ taken.old.items ++ kept_of field node step) }
{
    if target(&step).field == field {
        taken.push(Taken { node, step })?;
    }
    Ok(())
}

/// Adds the steps of a node at a field.
fn push_node<'a, P: ArenaSet<'a>>(
    taken: &mut Vec<Taken>,
    log: &CutLog<'_, 'a, '_, P>,
    field: u32,
    node: usize,
) -> Result<(), AllocError>
    requires { node < length log.now.nodes }
    ensures { OnOk result (taken.new.items ≡ taken.old.items ++ taken_by log.now field node) }
{
    for step in steps_of(log, node) {
        push_step(taken, field, node, step)?;
    }
    Ok(())
}

/// The steps of all nodes at a field, node by node in the order.
pub(crate) fn taken_of<'a, P: ArenaSet<'a>>(
    alloc: Global,
    log: &CutLog<'_, 'a, '_, P>,
    order: &[usize],
    field: u32,
) -> Result<Vec<Taken>, AllocError>
    requires { All (λ k. k < length log.now.nodes) order.now }
    ensures { IfOk result (λ v. v.items ≡ taken_before log.now field order.now (length order.now)) }
{
    let mut taken = Vec::new(alloc);
    for place in 0..order.len() {
        push_node(&mut taken, log, field, order[place])?;
    }
    Ok(taken)
}
