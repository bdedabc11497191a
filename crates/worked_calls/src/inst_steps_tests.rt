//! What instances hold at the start of a run, and a view of that.

ghost use Rattle.std.specs.Prelude.{◌≡◌, ◌<◌, true, length, IsTrue};
ghost use Rattle.std.specs.FinMap.{contains_key, insert};
ghost use Rattle.shared_values.specs.Arenas.{value_at};
ghost use Rattle.inst_steps.specs.Viewing.{HasPrivilege, viewed_cell};

use crate::framed_logs::log_of;
use bumpalo::Bump;
use inst_steps::{Store, steps};
use log_decl::Log;
use point_set::PointSet;
use privilege::Priv;
use semantics::Cell;
use std::alloc::Global;
use std::test::Fail;
use value_terms::Base;

/// A task that reads and writes, and an instance of each kind.
const RECORDS: &[u8] =
    b"task 1\nreq 1 1 2 1 rw ex\ninst 1 1 1 1,2 home\ninst 2 1 1 1 plain\ninst 3 1 1 1 red:1\nmap 1 1 1 1\n";

/// The base of what a cell of an instance holds.
fn base_at(store: &Store, inst: u32, point: u64, field: u32) -> Option<Base> {
    match store.value(&Cell { inst, point, field }) {
        Ok(Some(value)) => Some(value.base()),
        _ => None,
    }
}

/// A point and a field of the requirement at a position.
#[derive(Clone, Copy)]
struct Viewed {
    req: usize,
    point: u64,
    field: u32,
}

/// Whether a requirement reads and writes, and a store has the cell to which a point and a field of it are mapped.
fn may_view<P: PointSet + Copy>(store: &Store, log: &Log<'_, P>, viewed: Viewed) -> bool
    ensures access { IsTrue result → HasPrivilege log.now viewed.req Priv.Rw }
    ensures there { IsTrue result → contains_key store.now.cells
        (viewed_cell log.now viewed.req viewed.point viewed.field) ≡ true }
{
    let inst = match log.inst_of(viewed.req, viewed.field) {
        Some(inst) => inst,
        None => 0,
    };
    let cell = Cell {
        inst,
        point: viewed.point,
        field: viewed.field,
    };
    let is_there = store.number(&cell).is_some();
    match log.reqs().get(viewed.req) {
        Some(req) => req.access == Priv::Rw && is_there,
        None => false,
    }
}

/// Puts the value of a number into a cell, by way of a view that reads and writes, and gives the number of what was there.
fn replace_by_view<P: PointSet + Copy>(
    store: &mut Store,
    log: &Log<'_, P>,
    viewed: Viewed,
    number: usize,
) -> usize
    requires access { HasPrivilege log.now viewed.req Priv.Rw }
    requires there { contains_key store.old.cells
        (viewed_cell log.now viewed.req viewed.point viewed.field) ≡ true }
    requires known { number < length store.old.values }
    ensures cells { store.new.cells ≡ insert store.old.cells
        (viewed_cell log.now viewed.req viewed.point viewed.field)
        (value_at store.old.values number) }
    ensures before { result < length store.new.values }
{
    let mut view = store.view_rw(log, viewed.req);
    let before = view.get(viewed.point, viewed.field);
    view.set(viewed.point, viewed.field, number);
    before
}

/// Whether a store holds at each of these cells, by instance, point and field, a value with this base, or has no such cell.
fn holds(store: &Store, cells: &[(u32, u64, u32, Option<Base>)]) -> bool {
    for (inst, point, field, base) in cells {
        if base_at(store, *inst, *point, *field) != *base {
            return false;
        }
    }
    true
}

/// Whether a store holds just what it should at the points that are listed.
fn starts_on<P: PointSet + Copy>(alloc: Global, log: &Log<'_, P>) -> bool {
    match Store::start_on(alloc, log, &[0, 2]) {
        Ok(store) => holds(&store, &[(1, 2, 2, Some(Base::Init)), (1, 1, 2, None)]),
        Err(_) => false,
    }
}

/// Whether a cell of a store is changed by way of a view, and no other.
fn is_replaced<P: PointSet + Copy>(log: &Log<'_, P>, store: &mut Store) -> bool {
    let Ok(number) = store.number_of(Base::Const(9)) else {
        return false;
    };
    let viewed = Viewed {
        req: 0,
        point: 1,
        field: 1,
    };
    if !may_view(store, log, viewed) {
        return false;
    }
    let before = replace_by_view(store, log, viewed, number);
    let Ok(before) = store.value_of(before) else {
        return false;
    };
    before.base() == Base::Init
        && holds(
            store,
            &[(1, 1, 1, Some(Base::Const(9))), (1, 0, 1, Some(Base::Init))],
        )
}

/// Whether a store holds what it should at the start, and after a change.
fn starts<P: PointSet + Copy>(alloc: Global, log: &Log<'_, P>) -> bool {
    match Store::start(alloc, log) {
        Ok(mut store) => {
            holds(
                &store,
                &[
                    (1, 9, 2, Some(Base::Init)),
                    (2, 9, 1, Some(Base::Raw)),
                    (3, 9, 2, None),
                ],
            ) && is_replaced(log, &mut store)
        }
        Err(_) => false,
    }
}

/// Whether the log has moves, and its instances hold what they should.
fn is_as_wanted<'a>(alloc: Global, bump: &'a Bump) -> Result<bool, Fail> {
    let log = log_of(alloc, bump, RECORDS, 1)?;
    let moves = log.nodes().len() > 0 && steps(&log, 0).next().is_some();
    let stores = starts_on(alloc, &log) && starts(alloc, &log);
    log.let_go();
    Ok(moves && stores)
}

#[test]
fn stores_of_a_log(rt: HostRuntime) -> Result<(), Fail> {
    let bump = Bump::new(rt.alloc());
    assert!(rt; is_as_wanted(rt.alloc(), &bump)?);
    Ok(())
}
