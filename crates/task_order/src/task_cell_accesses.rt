//! What the tasks of a log do at listed points.

ghost use Rattle.std.specs.Prelude.{◌≡◌, ◌++◌, IfOk, OnOk, map, true};
ghost use Rattle.std.specs.List.Sorted.{IsStrictlyIncreasing};
ghost use Rattle.semantics.specs.Shown.{is_task_at};
ghost use Rattle.point_laws.specs.Alike.{AreFirsts};
ghost use Rattle.cell_races.specs.CellAccesses.{AreInOrder};
ghost use Rattle.order_laws.specs.TaskAccesses.{access_of};
ghost use Rattle.task_order.specs.Gathered.{Adds, AreDoneBy, AreFirstCellAccesses, IsDoneBy, cell_access_at, cell_accesses_over};

use cell_races::{Access, CellAccess, sort_cell_accesses};
use item_uses::is_task_at;
use listed_sets::Listed;
use logs::Log;
use point_set::{PointSet, points_in};
use privilege::Priv;
use semantics::{Cell, Req};
use std::alloc::{AllocError, Global};

/// What a privilege allows to do, as an access.
fn access_of(access: Priv) -> Access
    ensures { result ≡ access_of access }
{
    match access {
        Priv::Ro => Access::Reads,
        Priv::Rw => Access::Writes,
        Priv::Wd => Access::Writes,
        Priv::Red(op) => Access::Folds(op),
    }
}

/// The same at another point and field.
fn cell_access_at(one: CellAccess, point: u64, field: u32) -> CellAccess
    ensures { result ≡ cell_access_at one point field }
{
    CellAccess {
        cell: Cell {
            inst: one.cell.inst,
            point,
            field,
        },
        place: one.place,
        access: one.access,
    }
}

/// Adds what is done at some fields of a point.
fn push_fields(
    cell_accesses: &mut Vec<CellAccess>,
    one: CellAccess,
    point: u64,
    fields: &[u32],
) -> Result<(), AllocError>
    ensures { OnOk result (cell_accesses.new.items ≡ cell_accesses.old.items ++ map (cell_access_at one point) fields.now) }
{
    for field in fields {
        cell_accesses.push(cell_access_at(one, point, *field))?;
    }
    Ok(())
}

/// Adds what is done at some fields of the points of a set.
fn push_points<P: PointSet>(
    cell_accesses: &mut Vec<CellAccess>,
    one: CellAccess,
    set: &P,
    fields: &[u32],
) -> Result<(), AllocError>
    ensures { OnOk result (cell_accesses.new.items
        ≡ cell_accesses.old.items ++ cell_accesses_over one (P.points set.now) fields.now) }
{
    for point in points_in(set) {
        push_fields(cell_accesses, one, point, fields)?;
    }
    Ok(())
}

/// Adds what is done by a requirement of a task at the listed points of a set.
fn push_task<'a, P: PointSet + Copy>(
    cell_accesses: &mut Vec<CellAccess>,
    log: &Log<'a, P>,
    points: &[u64],
    req: &Req,
) -> Result<(), AllocError>
    requires ascend { IsStrictlyIncreasing points.now }
    requires task { is_task_at log.now req.now.item ≡ true }
    ensures { OnOk result (Adds (IsDoneBy log.now points.now req.now) cell_accesses.old.items cell_accesses.new.items) }
{
    if let Some(set) = log.set(req.space) {
        let cell = Cell {
            inst: req.tree,
            point: 0,
            field: 0,
        };
        let place = log.serial_place(req.item);
        let access = access_of(req.access);
        let one = CellAccess {
            cell,
            place,
            access,
        };
        let listed = Listed::at(set, Some(points));
        push_points(cell_accesses, one, &listed, req.fields.as_slice())?;
    }
    Ok(())
}

/// Adds what is done by a requirement, if its item is a task.
fn push_req<'a, P: PointSet + Copy>(
    cell_accesses: &mut Vec<CellAccess>,
    log: &Log<'a, P>,
    points: &[u64],
    req: &Req,
) -> Result<(), AllocError>
    requires { IsStrictlyIncreasing points.now }
    ensures { OnOk result (Adds (IsDoneBy log.now points.now req.now) cell_accesses.old.items cell_accesses.new.items) }
{
    if is_task_at(log.items(), req.item) {
        push_task(cell_accesses, log, points, req)?;
    }
    Ok(())
}

/// What all tasks do at listed points.
fn cell_accesses_at_points<'a, P: PointSet + Copy>(
    alloc: Global,
    log: &Log<'a, P>,
    points: &[u64],
) -> Result<Vec<CellAccess>, AllocError>
    requires { IsStrictlyIncreasing points.now }
    ensures { IfOk result (λ v. AreDoneBy log.now points.now log.now.reqs v.items) }
{
    let mut cell_accesses = Vec::new(alloc);
    for req in log.reqs() {
        push_req(&mut cell_accesses, log, points, req)?;
    }
    Ok(cell_accesses)
}

/// What all tasks do at first points, in the order of the places where it is done, and at a place in serial order.
pub(crate) fn cell_accesses_of_tasks<'a, P: PointSet + Copy>(
    alloc: Global,
    log: &Log<'a, P>,
    firsts: &[u64],
) -> Result<Vec<CellAccess>, AllocError>
    requires firsts { AreFirsts log.now firsts.now }
    requires ascend { IsStrictlyIncreasing firsts.now }
    ensures cell_accesses { IfOk result (λ v. AreFirstCellAccesses log.now v.items) }
    ensures order { IfOk result (λ v. AreInOrder v.items) }
{
    let mut cell_accesses = cell_accesses_at_points(alloc, log, firsts)?;
    sort_cell_accesses(&mut cell_accesses);
    Ok(cell_accesses)
}
