//! One move of a replay.

ghost use Rattle.std.specs.Prelude.{◌≡◌, ◌<◌, length, option_map, slice_get, IfErr, IfOk, MatchOption, None, OnErr, OnOk};
ghost use Rattle.std.specs.Option.{option_map_or};
ghost use Rattle.vocabulary.specs.Prelude.{Req, difference, req_at};
ghost use Rattle.shared_values.specs.Arenas as numbered;
ghost use Rattle.shared_values.specs.Arenas.{Keeps};
ghost use Rattle.serial_exec.specs.Kept.{value_at};
ghost use Rattle.inst_steps.specs.Acting.{IsAllowed, IsBy};
ghost use Rattle.inst_steps.specs.Celled.{AreOfInsts};
ghost use Rattle.inst_steps.specs.Stores.{HasCells, IsLight, IsNumberOf, after_move, value_in};
ghost use Rattle.replay.specs.Ends.{IsUnlike, Tells};
ghost use Rattle.replay.specs.Fitting.{IsOfItem, item_at, read_move};
ghost use Rattle.replay.specs.Versioned.{AreVersionsIn};
ghost use Rattle.replay.specs.Wanting.{AreWanted};

use crate::ends::ReplayEnd;
use crate::wanted::number_wanted;
use cut_logs::CutLog;
use inst_steps::{Action, Store};
use logs::Log;
use point_set::PointSet;
use privilege::Priv;
use semantics::{Cell, Move, Op, Place};
use serial_exec::{PlaceLists, Versions};
use std::alloc::Global;
use value_terms::{Base, Contribution, Memory, Value};

/// A value that differs from the one that is wanted.
#[derive(Drop)]
pub(crate) struct Unlike {
    pub(crate) got: Value,
    pub(crate) want: Value,
}

/// What a task reads by its requirement of a number: a cell.
#[derive(Clone, Copy)]
pub(crate) struct Reading {
    /// The position of the task among the items.
    pub(crate) item: usize,
    pub(crate) task: u32,
    pub(crate) number: u32,
    pub(crate) cell: Cell,
}

/// A place, and the position of an item that reads there.
#[derive(Clone, Copy)]
struct ItemPlace {
    item: usize,
    place: Place,
}

/// An item, and the position of a requirement of it.
#[derive(Clone, Copy)]
struct OwnReq {
    item: usize,
    req: usize,
}

/// What a replay goes by: a log, the same cut to the points at which it is replayed, and what its items want there.
#[derive(Drop)]
pub(crate) struct Replay<'r, 'a, P: PointSet + Copy> {
    pub(crate) alloc: Global,
    pub(crate) log: &'r Log<'a, P>,
    pub(crate) cut: &'r CutLog<'r, 'a, 'r, P>,
    pub(crate) versions: &'r Versions,
}

/// The tree of a requirement.
fn tree_of<P: PointSet + Copy>(log: &CutLog<'_, '_, '_, P>, item: usize, number: u32) -> u32
    ensures { result ≡ option_map_or (λ (r : Req). r.tree) (req_at log.now item number) 0 }
{
    match log.req(item, number) {
        Some(req) => req.tree,
        None => 0,
    }
}

/// The privilege of the requirement at a position.
fn privilege_of<P: PointSet + Copy>(log: &Log<'_, P>, req: usize) -> Option<Priv>
    ensures { result ≡ option_map (λ r. r.access) (slice_get log.now.reqs req) }
{
    match log.reqs().get(req) {
        Some(req) => Some(req.access),
        None => None,
    }
}

impl<'r, 'a, P: PointSet + Copy> Replay<'r, 'a, P> {
    /// The item that a node runs.
    pub(crate) fn item_at(&self, node: usize) -> usize
        requires { node < length self.now.cut.now.nodes }
        ensures { result ≡ item_at self.now.cut.now node }
    {
        match self.cut.nodes()[node].op {
            Op::Run { item } => item,
            _ => 0,
        }
    }

    /// The value of a number that a read of an item sees at a place and the one that it should see, where these differ. Values are made only for that.
    fn unlike_at(
        &self,
        store: &mut Store,
        wanted: &mut PlaceLists<usize>,
        at: &ItemPlace,
        got: usize,
    ) -> Result<Option<Unlike>, Memory>
        requires item { at.now.item < length self.now.versions.now.positions }
        requires got { got < length store.old.values }
        requires wanted { AreWanted store.old.values self.now.versions.now wanted.old }
        ensures unlike { IfOk result (λ r. MatchOption r
            (numbered.value_at store.old.values got
            ≡ value_at self.now.versions.now at.now.item at.now.place)
            (IsUnlike (numbered.value_at store.old.values got)
            (value_at self.now.versions.now at.now.item at.now.place))) }
        ensures wanted { OnOk result (AreWanted store.new.values self.now.versions.now wanted.new) }
        ensures cells { store.new.cells ≡ store.old.cells }
    {
        let number = number_wanted(wanted, store, self.versions, at.item, &at.place)?;
        if store.same(got, number)? {
            return Ok(None);
        }
        let got = store.value_of(got)?;
        let want = self.versions.want(self.alloc, at.item, &at.place)?;
        Ok(Some(Unlike { got, want }))
    }

    /// Judges the value of a number that an item reads from a cell.
    fn judge(
        &self,
        store: &mut Store,
        wanted: &mut PlaceLists<usize>,
        reading: Reading,
        got: usize,
    ) -> Result<(), ReplayEnd>
        requires item { IsOfItem self.now.cut.now reading.item (read_move reading) }
        requires inst { AreOfInsts self.now.cut.now (read_move reading) }
        requires versions { AreVersionsIn self.now.cut.now self.now.versions.now }
        requires got { got < length store.old.values }
        requires wanted { AreWanted store.old.values self.now.versions.now wanted.old }
        ensures right { OnOk result (difference self.now.cut.now (read_move reading)
            (λ c. numbered.value_at store.old.values got) ≡ None) }
        ensures wanted { OnOk result (AreWanted store.new.values self.now.versions.now wanted.new) }
        ensures cells { store.new.cells ≡ store.old.cells }
        ensures end { IfErr result (Tells self.now.cut.now (difference self.now.cut.now
            (read_move reading) (λ c. numbered.value_at store.old.values got))) }
    {
        let at = ItemPlace {
            item: reading.item,
            place: Place {
                tree: tree_of(self.cut, reading.item, reading.number),
                point: reading.cell.point,
                field: reading.cell.field,
            },
        };
        match self.unlike_at(store, wanted, &at, got)? {
            None => Ok(()),
            Some(Unlike { got, want }) => Err(ReplayEnd::Differ {
                task: reading.task,
                req: reading.number,
                point: reading.cell.point,
                field: reading.cell.field,
                got,
                want,
            }),
        }
    }

    /// The number of what a read sees, by the requirement at a position, in its view.
    fn number_read(&self, store: &mut Store, req: usize, reading: Reading) -> usize
        requires allowed { IsAllowed self.now.log.now (read_move reading) req }
        requires cell { HasCells store.old.cells (read_move reading) }
        ensures number { IsNumberOf store.new.values (value_in store.new.cells reading.cell) result }
        ensures same { store.new ≡ store.old }
    {
        let cell = reading.cell;
        match privilege_of(self.log, req) {
            Some(Priv::Ro) => store.view_ro(self.log, req).get_at(&cell),
            Some(Priv::Rw) => store.view_rw(self.log, req).get_at(&cell),
            _ => unreachable!(),
        }
    }

    /// Judges a read by the requirement at a position, in its view.
    fn read(
        &self,
        store: &mut Store,
        wanted: &mut PlaceLists<usize>,
        req: usize,
        reading: Reading,
    ) -> Result<(), ReplayEnd>
        requires allowed { IsAllowed self.now.log.now (read_move reading) req }
        requires item { IsOfItem self.now.cut.now reading.item (read_move reading) }
        requires inst { AreOfInsts self.now.cut.now (read_move reading) }
        requires versions { AreVersionsIn self.now.cut.now self.now.versions.now }
        requires cell { HasCells store.old.cells (read_move reading) }
        requires wanted { AreWanted store.old.values self.now.versions.now wanted.old }
        ensures right { OnOk result (difference self.now.cut.now
            (read_move reading) (value_in store.old.cells) ≡ None) }
        ensures wanted { OnOk result (AreWanted store.new.values self.now.versions.now wanted.new) }
        ensures cells { store.new.cells ≡ store.old.cells }
        ensures end { IfErr result (Tells self.now.cut.now (difference self.now.cut.now
            (read_move reading) (value_in store.old.cells))) }
    {
        let got = self.number_read(store, req, reading);
        self.judge(store, wanted, reading, got)
    }

    /// Puts what a task writes by the requirement at a position into its view.
    fn write(&self, store: &mut Store, req: usize, task: u32, cell: &Cell) -> Result<(), Memory>
        requires allowed { IsAllowed self.now.log.now (Move.Write task cell.now) req }
        requires cell { HasCells store.old.cells (Move.Write task cell.now) }
        ensures moved { OnOk result (store.new.cells
            ≡ after_move (Move.Write task cell.now) store.old.cells) }
        ensures kept { Keeps store.old.values store.new.values }
    {
        let number = store.number_of(Base::Out(task))?;
        match privilege_of(self.log, req) {
            Some(Priv::Rw) => {
                let mut view = store.view_rw(self.log, req);
                view.set_at(cell, number);
            }
            Some(Priv::Wd) => {
                let mut view = store.view_wd(self.log, req);
                view.set_at(cell, number);
            }
            _ => unreachable!(),
        }
        Ok(())
    }

    /// Takes a move of a run in the view of the requirement at a position: judges a read, and does what others do.
    #[tactic(auto, using(crate::proofs::Wanting::still_wanted))]
    fn take_by(
        &self,
        store: &mut Store,
        wanted: &mut PlaceLists<usize>,
        own: OwnReq,
        step: &Move,
    ) -> Result<(), ReplayEnd>
        requires allowed { IsAllowed self.now.log.now step.now own.req }
        requires item { IsOfItem self.now.cut.now own.item step.now }
        requires insts { AreOfInsts self.now.cut.now step.now }
        requires versions { AreVersionsIn self.now.cut.now self.now.versions.now }
        requires cells { HasCells store.old.cells step.now }
        requires light { IsLight store.old.cells step.now }
        requires wanted { AreWanted store.old.values self.now.versions.now wanted.old }
        ensures right { OnOk result (difference self.now.cut.now
            step.now (value_in store.old.cells) ≡ None) }
        ensures moved { OnOk result (store.new.cells ≡ after_move step.now store.old.cells) }
        ensures wanted { OnOk result (AreWanted store.new.values self.now.versions.now wanted.new) }
        ensures end { IfErr result (Tells self.now.cut.now
            (difference self.now.cut.now step.now (value_in store.old.cells))) }
    {
        match *step {
            Move::Read {
                task,
                req: number,
                cell,
            } => {
                let reading = Reading {
                    item: own.item,
                    task,
                    number,
                    cell,
                };
                self.read(store, wanted, own.req, reading)
            }
            Move::Write { task, cell } => {
                self.write(store, own.req, task, &cell)?;
                Ok(())
            }
            Move::Reduce {
                task,
                req: number,
                cell,
                ..
            } => {
                let mut view = store.view_red(self.log, own.req);
                view.fold_in_at(&cell, Contribution { task, req: number })?;
                Ok(())
            }
            _ => unreachable!(),
        }
    }

    /// Takes a move of a node that runs an item: those of the run through the view of their requirement, and others as they are.
    #[tactic(auto, using(crate::proofs::Wanting::still_wanted))]
    pub(crate) fn take(
        &self,
        store: &mut Store,
        wanted: &mut PlaceLists<usize>,
        item: usize,
        action: &Action,
    ) -> Result<(), ReplayEnd>
        requires by { IsBy self.now.log.now action.now }
        requires item { IsOfItem self.now.cut.now item action.now.step }
        requires insts { AreOfInsts self.now.cut.now action.now.step }
        requires versions { AreVersionsIn self.now.cut.now self.now.versions.now }
        requires cells { HasCells store.old.cells action.now.step }
        requires light { IsLight store.old.cells action.now.step }
        requires wanted { AreWanted store.old.values self.now.versions.now wanted.old }
        ensures right { OnOk result (difference self.now.cut.now
            action.now.step (value_in store.old.cells) ≡ None) }
        ensures moved { OnOk result (store.new.cells ≡ after_move action.now.step store.old.cells) }
        ensures wanted { OnOk result (AreWanted store.new.values self.now.versions.now wanted.new) }
        ensures end { IfErr result (Tells self.now.cut.now
            (difference self.now.cut.now action.now.step (value_in store.old.cells))) }
    {
        match action.req {
            Some(req) => self.take_by(store, wanted, OwnReq { item, req }, &action.step),
            None => {
                store.apply(&action.step)?;
                Ok(())
            }
        }
    }
}
