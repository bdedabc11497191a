//! What instances hold at the start.

ghost use Rattle.std.specs.Prelude.{◌≡◌, ◌<◌, length, IfOk, OnOk};
ghost use Rattle.std.specs.List.Sorted.{IsStrictlyIncreasing};
ghost use Rattle.vocabulary.specs.Prelude.{is_in};
ghost use Rattle.semantics.specs.Execution as says;
ghost use Rattle.point_laws.specs.Cut.{cut};
ghost use Rattle.shared_values.specs.Arenas.{value_at};
ghost use Rattle.inst_steps.specs.Stores.{HoldsMore, IsStart, base_of, is_at_point, is_at_points, is_of, is_of_some};

use crate::store::Store;
use cut_logs::CutLog;
use logs::Log;
use point_set::{PointSet, points_in};
use semantics::Cell;
use spy_grammar::InstKind;
use std::alloc::Global;
use value_terms::{Base, Memory};

/// What the cells of an instance hold at the start.
fn base_of(kind: InstKind) -> Base
    ensures { result ≡ base_of kind }
{
    match kind {
        InstKind::Home => Base::Init,
        _ => Base::Raw,
    }
}

/// Holds the value of a number at a point of an instance.
fn hold_fields(
    store: &mut Store,
    inst: u32,
    point: u64,
    fields: &[u32],
    number: usize,
) -> Result<(), Memory>
    requires { number < length store.old.values }
    ensures held { OnOk result (HoldsMore (is_at_point inst point fields.now)
        (λ c. value_at store.old.values number) store.old.cells store.new.cells) }
    ensures values { store.new.values ≡ store.old.values }
{
    for field in fields {
        let cell = Cell {
            inst,
            point,
            field: *field,
        };
        store.hold(cell, number)?;
    }
    Ok(())
}

/// Holds the value of a number at these points of an instance.
fn hold_points<P: PointSet>(
    store: &mut Store,
    inst: u32,
    set: &P,
    fields: &[u32],
    number: usize,
) -> Result<(), Memory>
    requires { number < length store.old.values }
    ensures { OnOk result (HoldsMore (is_at_points inst (is_in (P.points set.now)) fields.now)
        (λ c. value_at store.old.values number) store.old.cells store.new.cells) }
{
    for point in points_in(set) {
        hold_fields(store, inst, point, fields, number)?;
    }
    Ok(())
}

/// Holds what the instance with an id has at the start.
fn hold_inst<P: PointSet + Copy>(
    store: &mut Store,
    log: &CutLog<'_, '_, '_, P>,
    id: u32,
) -> Result<(), Memory>
    ensures { OnOk result (HoldsMore (is_of log.now id) (says.start log.now)
        store.old.cells store.new.cells) }
{
    let Some(inst) = log.inst(id) else {
        return Ok(());
    };
    let number = store.number_of(base_of(inst.kind))?;
    match log.set(inst.space) {
        Some(set) => hold_points(store, id, &set, inst.fields.as_slice(), number),
        None => Ok(()),
    }
}

/// Holds what all instances have at the start.
fn hold_insts<P: PointSet + Copy>(
    store: &mut Store,
    log: &CutLog<'_, '_, '_, P>,
) -> Result<(), Memory>
    ensures { OnOk result (HoldsMore (is_of_some log.now log.now.insts)
        (says.start log.now) store.old.cells store.new.cells) }
{
    for inst in log.insts() {
        hold_inst(store, log, inst.id)?;
    }
    Ok(())
}

impl Store {
    /// What instances hold at the start of a log that may be cut: the store has each of their cells, and no other.
    pub fn start_of<P: PointSet + Copy>(
        alloc: Global,
        log: &CutLog<'_, '_, '_, P>,
    ) -> Result<Store, Memory>
        ensures { IfOk result (λ s. IsStart log.now s.cells) }
    {
        let mut store = Store::new(alloc);
        match hold_insts(&mut store, log) {
            Ok(()) => Ok(store),
            Err(memory) => Err(memory),
        }
    }

    /// What instances hold at the start: the store has each of their cells, and no other.
    pub fn start<P: PointSet + Copy>(alloc: Global, log: &Log<'_, P>) -> Result<Store, Memory>
        ensures { IfOk result (λ s. IsStart log.now s.cells) }
    {
        let log = CutLog::whole(log);
        Store::start_of(alloc, &log)
    }

    /// What instances hold at the start at listed points: the store has each of their cells there, and no other.
    pub fn start_on<P: PointSet + Copy>(
        alloc: Global,
        log: &Log<'_, P>,
        points: &[u64],
    ) -> Result<Store, Memory>
        requires { IsStrictlyIncreasing points.now }
        ensures { IfOk result (λ s. IsStart (cut points.now log.now) s.cells) }
    {
        let log = CutLog::at(log, points);
        Store::start_of(alloc, &log)
    }
}
