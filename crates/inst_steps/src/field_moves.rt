//! What a node does to the fields of instances, wherever its points are.

ghost use Rattle.std.specs.Prelude.{◌≡◌, ◌<◌, ◌++◌, length, map, OnOk};
ghost use Rattle.vocabulary.specs.Prelude.{points_in};
ghost use Rattle.inst_steps.specs.FieldMoves.{field_moves_at, moves_in_fields};
ghost use Rattle.inst_steps.specs.Stepping.{pass_seen};
ghost use Rattle.inst_steps.specs.Sweeps.{move_at};

use crate::iterator::reqs_are_numbered;
use crate::spot::move_at;
use crate::sweep::{Sweep, sweep_at, sweep_count};
use cut_logs::CutLog;
use point_set::PointSet;
use semantics::Move;
use std::alloc::AllocError;

/// Adds what is done at point 0 of each field of a sweep.
fn push_fields<P: PointSet + Copy>(
    moves: &mut Vec<Move>,
    log: &CutLog<'_, '_, '_, P>,
    sweep: &Sweep<'_>,
) -> Result<(), AllocError>
    ensures { OnOk result (moves.new.items
        ≡ moves.old.items ++ map (λ f. move_at log.now sweep.now.act (0, f)) sweep.now.fields.now) }
{
    for field in sweep.fields {
        moves.push(move_at(log, sweep.act, 0, *field))?;
    }
    Ok(())
}

/// Adds what a sweep would do if its space had point 0 alone in the place of its points, of which it may have none.
fn push_sweep<P: PointSet + Copy>(
    moves: &mut Vec<Move>,
    log: &CutLog<'_, '_, '_, P>,
    sweep: &Sweep<'_>,
) -> Result<(), AllocError>
    ensures { OnOk result (moves.new.items ≡ moves.old.items ++ moves_in_fields log.now (pass_seen sweep.now)
        (points_in log.now sweep.now.space)) }
{
    let Some(set) = log.set(sweep.space) else {
        return Ok(());
    };
    match set.first() {
        Some(_) => {
            push_fields(moves, log, sweep)?;
            Ok(())
        }
        None => Ok(()),
    }
}

/// Adds what a node would do if each of its spaces that has points had point 0 alone: one move for each field of a sweep. Whatever the node does is one of these at another point.
pub fn push_field_moves<P: PointSet + Copy>(
    moves: &mut Vec<Move>,
    log: &CutLog<'_, '_, '_, P>,
    node: usize,
) -> Result<(), AllocError>
    requires { node < length log.now.nodes }
    ensures { OnOk result (moves.new.items ≡ moves.old.items ++ field_moves_at log.now node) }
{
    reqs_are_numbered(log);
    let op = &log.nodes()[node].op;
    for k in 0..sweep_count(log, op) {
        let Some(sweep) = sweep_at(log, op, k) else {
            continue;
        };
        push_sweep(moves, log, &sweep)?;
    }
    Ok(())
}
