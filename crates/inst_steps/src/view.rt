//! A store as one requirement of a task sees it.

ghost use Rattle.std.specs.Prelude.{◌≡◌, ℕ, ◌-◌, ◌<◌, ◌^◌, true, length, Some, OnOk, OnErr};
ghost use Rattle.std.specs.FinMap as map;
ghost use Rattle.vocabulary.specs.Prelude.{Priv, weight_of};
ghost use Rattle.shared_values.specs.Arenas.{value_at, Keeps};
ghost use Rattle.inst_steps.specs.Stores.{value_in, with_added};
ghost use Rattle.inst_steps.specs.Viewing.{HasPrivilege, viewed_cell};

use crate::store::Store;
use logs::Log;
use point_set::PointSet;
use privilege::{Folds, Reads, Red, Ro, Rw, Wd, Writes};
use semantics::Cell;
use value_terms::{Contribution, Memory};

/// A store, in the cells to which a requirement is mapped. What it allows to do follows from the privilege, by its type.
#[derive(Drop)]
pub struct View<'s, 'a, P: PointSet + Copy, V> {
    store: &'s mut Store,
    log: &'s Log<'a, P>,
    req: usize,
    privilege: V,
}

impl Store {
    /// The store as a requirement that reads sees it. The requirement is named by its position.
    pub fn view_ro<'s, 'a, P: PointSet + Copy>(
        &'s mut self,
        log: &'s Log<'a, P>,
        req: usize,
    ) -> View<'s, 'a, P, Ro>
        requires { HasPrivilege log.now req Priv.Ro }
        ensures same_reference { result.store.ghost_name ≡ self.entry.ghost_name }
        ensures store { result.store.now ≡ self.old }
        ensures log { result.log.now ≡ log.now }
        ensures req { result.req ≡ req }
    {
        View {
            store: self,
            log,
            req,
            privilege: Ro,
        }
    }

    /// The same of a requirement that reads and writes.
    pub fn view_rw<'s, 'a, P: PointSet + Copy>(
        &'s mut self,
        log: &'s Log<'a, P>,
        req: usize,
    ) -> View<'s, 'a, P, Rw>
        requires { HasPrivilege log.now req Priv.Rw }
        ensures same_reference { result.store.ghost_name ≡ self.entry.ghost_name }
        ensures store { result.store.now ≡ self.old }
        ensures log { result.log.now ≡ log.now }
        ensures req { result.req ≡ req }
    {
        View {
            store: self,
            log,
            req,
            privilege: Rw,
        }
    }

    /// The same of a requirement that writes, and sees nothing of the old contents.
    pub fn view_wd<'s, 'a, P: PointSet + Copy>(
        &'s mut self,
        log: &'s Log<'a, P>,
        req: usize,
    ) -> View<'s, 'a, P, Wd>
        requires { HasPrivilege log.now req Priv.Wd }
        ensures same_reference { result.store.ghost_name ≡ self.entry.ghost_name }
        ensures store { result.store.now ≡ self.old }
        ensures log { result.log.now ≡ log.now }
        ensures req { result.req ≡ req }
    {
        View {
            store: self,
            log,
            req,
            privilege: Wd,
        }
    }

    /// The same of a requirement that reduces, with its operator.
    pub fn view_red<'s, 'a, P: PointSet + Copy>(
        &'s mut self,
        log: &'s Log<'a, P>,
        req: usize,
    ) -> View<'s, 'a, P, Red>
        requires { (op : ℕ) × HasPrivilege log.now req (Priv.Red op) }
        ensures same_reference { result.store.ghost_name ≡ self.entry.ghost_name }
        ensures store { result.store.now ≡ self.old }
        ensures log { result.log.now ≡ log.now }
        ensures req { result.req ≡ req }
        ensures op { HasPrivilege log.now req (Priv.Red result.privilege.op) }
    {
        let op = operator_of(log, req);
        View {
            store: self,
            log,
            req,
            privilege: Red { op },
        }
    }
}

/// The operator of a requirement that reduces.
fn operator_of<P: PointSet + Copy>(log: &Log<'_, P>, req: usize) -> u32
    requires { (op : ℕ) × HasPrivilege log.now req (Priv.Red op) }
    ensures { HasPrivilege log.now req (Priv.Red result) }
{
    match log.reqs().get(req) {
        Some(req) => match req.access {
            privilege::Priv::Red(op) => op,
            _ => 0,
        },
        None => 0,
    }
}

/// The cell to which a point and a field of a requirement are mapped.
fn viewed_cell<P: PointSet + Copy>(log: &Log<'_, P>, req: usize, point: u64, field: u32) -> Cell
    ensures { result ≡ viewed_cell log.now req point field }
{
    let inst = match log.inst_of(req, field) {
        Some(inst) => inst,
        None => 0,
    };
    Cell { inst, point, field }
}

impl<'s, 'a, P: PointSet + Copy, V: Reads> View<'s, 'a, P, V> {
    /// The number of what a cell holds to which the requirement is mapped.
    pub fn get_at(&self, cell: &Cell) -> usize
        requires mapped { viewed_cell self.now.log.now self.now.req cell.now.point cell.now.field ≡ cell.now }
        requires there { map.contains_key self.now.store.now.cells cell.now ≡ true }
        ensures known { result < length self.now.store.now.values }
        ensures value { map.get self.now.store.now.cells cell.now
            ≡ Some (value_at self.now.store.now.values result) }
    {
        match self.store.number(cell) {
            Some(number) => number,
            None => unreachable!(),
        }
    }

    /// The number of what the cell of a point and a field holds.
    pub fn get(&self, point: u64, field: u32) -> usize
        requires { map.contains_key self.now.store.now.cells
            (viewed_cell self.now.log.now self.now.req point field) ≡ true }
        ensures known { result < length self.now.store.now.values }
        ensures value { map.get self.now.store.now.cells
            (viewed_cell self.now.log.now self.now.req point field)
            ≡ Some (value_at self.now.store.now.values result) }
    {
        let cell = viewed_cell(self.log, self.req, point, field);
        self.get_at(&cell)
    }
}

impl<'s, 'a, P: PointSet + Copy, V: Writes> View<'s, 'a, P, V> {
    /// Puts the value of a number into a cell to which the requirement is mapped, and into no other.
    pub fn set_at(&mut self, cell: &Cell, number: usize)
        requires mapped { viewed_cell self.old.log.now self.old.req cell.now.point cell.now.field ≡ cell.now }
        requires there { map.contains_key self.old.store.now.cells cell.now ≡ true }
        requires known { number < length self.old.store.now.values }
        ensures store { self.new.store.now.cells ≡ map.insert self.old.store.now.cells cell.now
            (value_at self.old.store.now.values number) }
        ensures values { self.new.store.now.values ≡ self.old.store.now.values }
        ensures same_reference { self.new.store.ghost_name ≡ self.old.store.ghost_name }
        ensures log { self.new.log.now ≡ self.old.log.now }
        ensures req { self.new.req ≡ self.old.req }
    {
        self.store.put(*cell, number);
    }

    /// Puts the value of a number into the cell of a point and a field, and into no other.
    pub fn set(&mut self, point: u64, field: u32, number: usize)
        requires there { map.contains_key self.old.store.now.cells
            (viewed_cell self.old.log.now self.old.req point field) ≡ true }
        requires known { number < length self.old.store.now.values }
        ensures store { self.new.store.now.cells ≡ map.insert self.old.store.now.cells
            (viewed_cell self.old.log.now self.old.req point field)
            (value_at self.old.store.now.values number) }
        ensures values { self.new.store.now.values ≡ self.old.store.now.values }
        ensures same_reference { self.new.store.ghost_name ≡ self.old.store.ghost_name }
        ensures log { self.new.log.now ≡ self.old.log.now }
        ensures req { self.new.req ≡ self.old.req }
    {
        let cell = viewed_cell(self.log, self.req, point, field);
        self.set_at(&cell, number);
    }
}

impl<'s, 'a, P: PointSet + Copy, V: Folds> View<'s, 'a, P, V> {
    /// Adds a contribution once to a cell to which the requirement is mapped, and to no other, with the operator of the privilege. Where memory runs out the cells hold what they held.
    pub fn fold_in_at(&mut self, cell: &Cell, c: Contribution) -> Result<(), Memory>
        requires mapped { viewed_cell self.old.log.now self.old.req cell.now.point cell.now.field ≡ cell.now }
        requires there { map.contains_key self.old.store.now.cells cell.now ≡ true }
        requires fits { weight_of (value_in self.old.store.now.cells cell.now) < 2 ^ 64 - 1 }
        ensures ok { OnOk result (self.new.store.now.cells
            ≡ with_added self.old.store.now.cells cell.now (V.op self.old.privilege) c) }
        ensures err { OnErr result (self.new.store.now.cells ≡ self.old.store.now.cells) }
        ensures kept { Keeps self.old.store.now.values self.new.store.now.values }
        ensures same_reference { self.new.store.ghost_name ≡ self.old.store.ghost_name }
        ensures log { self.new.log.now ≡ self.old.log.now }
        ensures req { self.new.req ≡ self.old.req }
        ensures privilege { self.new.privilege ≡ self.old.privilege }
    {
        let op = self.privilege.op();
        self.store.add(*cell, op, c)
    }

    /// Adds a contribution once to the cell of a point and a field, and to no other, with the operator of the privilege. Where memory runs out the cells hold what they held.
    pub fn fold_in(&mut self, point: u64, field: u32, c: Contribution) -> Result<(), Memory>
        requires there { map.contains_key self.old.store.now.cells
            (viewed_cell self.old.log.now self.old.req point field) ≡ true }
        requires fits { weight_of (value_in self.old.store.now.cells
            (viewed_cell self.old.log.now self.old.req point field)) < 2 ^ 64 - 1 }
        ensures ok { OnOk result (self.new.store.now.cells
            ≡ with_added self.old.store.now.cells
            (viewed_cell self.old.log.now self.old.req point field) (V.op self.old.privilege) c) }
        ensures err { OnErr result (self.new.store.now.cells ≡ self.old.store.now.cells) }
        ensures kept { Keeps self.old.store.now.values self.new.store.now.values }
        ensures same_reference { self.new.store.ghost_name ≡ self.old.store.ghost_name }
        ensures log { self.new.log.now ≡ self.old.log.now }
        ensures req { self.new.req ≡ self.old.req }
        ensures privilege { self.new.privilege ≡ self.old.privilege }
    {
        let cell = viewed_cell(self.log, self.req, point, field);
        self.fold_in_at(&cell, c)
    }
}
