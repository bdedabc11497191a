//! Where a sweep stands.

ghost use Rattle.std.specs.Prelude.{◌≡◌, [], ◌∷◌, ◌++◌, true, if◌then◌else◌, IfSome, IfNone, slice_index};
ghost use Rattle.vocabulary.specs.Prelude.{Tables, grid};
ghost use Rattle.inst_steps.specs.Stepping.{HasInst, IsSpotOf, spot_here, spot_grid, spots_left, IsWithin};
ghost use Rattle.inst_steps.specs.Sweeps.{action_at, inst_for, move_at, req_in};

use crate::act::{Act, Action};
use cut_logs::CutLog;
use point_set::{PointSet, next_after};
use semantics::{Cell, Move};

/// A point of a set and a field, by its place, at which an act is done next, and the instance to which a task's act is mapped in that field.
#[derive(Drop)]
pub(crate) struct Spot<'l, S: PointSet + Copy> {
    pub(crate) act: Act,
    pub(crate) set: S,
    pub(crate) fields: &'l [u32],
    pub(crate) point: u64,
    pub(crate) place: usize,
    pub(crate) inst: u32,
}

/// The instance to which an act of a task is mapped in a field.
fn inst_for<P: PointSet + Copy>(log: &CutLog<'_, '_, '_, P>, act: Act, field: u32) -> u32
    ensures { result ≡ inst_for log.now act field }
{
    let mapped = match act {
        Act::Read { item, number, .. }
        | Act::Write { item, number, .. }
        | Act::Reduce { item, number, .. } => log.inst_of_item(item, number, field),
        _ => None,
    };
    mapped.unwrap_or(0)
}

/// The first point of a set and the first field.
pub(crate) fn first_spot<'l, P: PointSet + Copy, S: PointSet + Copy>(
    log: &CutLog<'_, '_, '_, P>,
    act: Act,
    set: S,
    fields: &'l [u32],
) -> Option<Spot<'l, S>>
    ensures spot { IfSome result (IsSpotOf S.points log.now) }
    ensures act { IfSome result (λ s. s.act ≡ act) }
    ensures grid { spots_left S.points result ≡ grid (S.points set) fields.now }
{
    if fields.is_empty() {
        return None;
    }
    match set.first() {
        Some(point) => Some(Spot {
            act,
            set,
            fields,
            point,
            place: 0,
            inst: inst_for(log, act, fields[0]),
        }),
        None => None,
    }
}

/// Takes a spot to the field after its own, or to the first field of the point after its own, and tells whether there is one. The instance is looked up only where the field is another.
pub(crate) fn go_on<P: PointSet + Copy, S: PointSet + Copy>(
    log: &CutLog<'_, '_, '_, P>,
    spot: &mut Spot<'_, S>,
) -> bool
    requires { IsSpotOf S.points log.now spot.old }
    ensures spot { result ≡ true → IsSpotOf S.points log.now spot.new }
    ensures act { spot.new.act ≡ spot.old.act }
    ensures grid { spot_grid S.points spot.old
        ≡ spot_here spot.old ∷ (if result then spot_grid S.points spot.new else []) }
{
    if spot.place + 1 < spot.fields.len() {
        spot.place += 1;
        spot.inst = inst_for(log, spot.act, spot.fields[spot.place]);
        return true;
    }
    let Some(point) = next_after(&spot.set, spot.point) else {
        return false;
    };
    spot.inst = first_inst(log, spot);
    spot.place = 0;
    spot.point = point;
    true
}

/// The instance of a spot's act in its first field.
fn first_inst<P: PointSet + Copy, S: PointSet + Copy>(
    log: &CutLog<'_, '_, '_, P>,
    spot: &Spot<'_, S>,
) -> u32
    requires within { IsWithin spot.now }
    requires inst { HasInst log.now spot.now }
    ensures { result ≡ inst_for log.now spot.now.act (slice_index spot.now.fields.now 0) }
{
    if spot.place == 0 {
        return spot.inst;
    }
    inst_for(log, spot.act, spot.fields[0])
}

/// The cell of an instance.
fn cell_in(inst: u32, point: u64, field: u32) -> Cell
    ensures { result ≡ record { inst = inst; point = point; field = field } }
{
    Cell { inst, point, field }
}

/// What an act does at a point and a field, where this is the instance to which it is mapped if it is of a task.
fn move_in(inst: u32, act: Act, point: u64, field: u32) -> Move
    ensures { (t : Tables) → inst ≡ inst_for t act field → result ≡ move_at t act (point, field) }
{
    match act {
        Act::Read { task, number, .. } => Move::Read {
            task,
            req: number,
            cell: cell_in(inst, point, field),
        },
        Act::Write { task, .. } => Move::Write {
            task,
            cell: cell_in(inst, point, field),
        },
        Act::Reduce {
            task,
            number,
            op,
            ..
        } => Move::Reduce {
            task,
            req: number,
            op,
            cell: cell_in(inst, point, field),
        },
        Act::Copy { src, dst } => Move::Copy {
            from: cell_in(src, point, field),
            to: cell_in(dst, point, field),
        },
        Act::Put { inst, n } => Move::Put {
            cell: cell_in(inst, point, field),
            n,
        },
        Act::Reset { inst } => Move::Reset {
            cell: cell_in(inst, point, field),
        },
        Act::Fold { op, src, dst } => Move::Fold {
            op,
            from: cell_in(src, point, field),
            to: cell_in(dst, point, field),
        },
    }
}

/// What an act does at a point and a field.
pub(crate) fn move_at<P: PointSet + Copy>(
    log: &CutLog<'_, '_, '_, P>,
    act: Act,
    point: u64,
    field: u32,
) -> Move
    ensures { result ≡ move_at log.now act (point, field) }
{
    move_in(inst_for(log, act, field), act, point, field)
}

/// The position of the requirement by which a run acts.
fn req_in(act: Act) -> Option<usize>
    ensures { result ≡ req_in act }
{
    match act {
        Act::Read { req, .. } => req,
        Act::Write { req, .. } => req,
        Act::Reduce { req, .. } => req,
        _ => None,
    }
}

/// What is done where a sweep stands.
pub(crate) fn action_here<S: PointSet + Copy>(spot: &Spot<'_, S>) -> Action
    requires { IsWithin spot.now }
    ensures { (t : Tables) → HasInst t spot.now → result ≡ action_at t spot.now.act (spot_here spot.now) }
{
    let field = spot.fields[spot.place];
    Action {
        req: req_in(spot.act),
        step: move_in(spot.inst, spot.act, spot.point, field),
    }
}
