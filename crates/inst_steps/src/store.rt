//! What instances hold.

ghost use Rattle.std.specs.Prelude.{◌≡◌, ◌+◌, ◌-◌, ◌<◌, ◌^◌, true, length, option_map, OnOk, OnErr, IfOk, IfSome};
ghost use Rattle.std.specs.FinMap as map;
ghost use Rattle.vocabulary.specs.Prelude.{add_one, fold_in, plain, same_value, weight_of};
ghost use Rattle.shared_values.specs.Arenas.{value_at, Keeps};
ghost use Rattle.inst_steps.specs.Stores.{value_in, with_added, IsNumberOf};

use indexmap::IndexMap;
use semantics::Cell;
use shared_values::Arena;
use std::alloc::Global;
use std::marker::Model;
use value_terms::{Base, Contribution, Memory, Value};

/// What each of some cells holds, by number: to copy a value is to copy its number, and cells that hold what was made in one way share it.
///
/// Contracts see the values, each at its number, and a finite map from cells to values. What a number stands for never changes.
#[derive(Drop)]
pub struct Store {
    values: Arena,
    cells: IndexMap<Cell, usize>,
}

impl Model for Store {
    ghost use Rattle.inst_steps.specs.Stores.{Held, coded_held, held, AreKnown};

    ghost Value = { Held };

    ghost coded = { coded_held };

    ghost view = { λ s. held s.values s.cells.entries };

    ghost invariant = { λ s. AreKnown s.values s.cells.entries };
}

impl Store {
    /// A store without cells.
    pub(crate) fn new(alloc: Global) -> Store
        ensures { result.cells ≡ map.empty }
    {
        Store {
            values: Arena::new(alloc),
            cells: IndexMap::new(alloc),
        }
    }

    /// Where the store takes its memory.
    fn alloc(&self) -> Global {
        *self.cells.allocator()
    }

    /// The number of what a cell holds, or `None` exactly where the store has no such cell.
    pub fn number(&self, cell: &Cell) -> Option<usize>
        ensures value { option_map (value_at self.now.values) result ≡ map.get self.now.cells cell.now }
        ensures known { IfSome result (λ n. n < length self.now.values) }
    {
        self.cells.get(cell).copied()
    }

    /// The number of what a cell holds that is there.
    pub(crate) fn number_at(&self, cell: &Cell) -> usize
        requires { map.contains_key self.now.cells cell.now ≡ true }
        ensures { IsNumberOf self.now.values (value_in self.now.cells cell.now) result }
    {
        match self.number(cell) {
            Some(number) => number,
            None => unreachable!(),
        }
    }

    /// The value of a number, made anew.
    pub fn value_of(&self, number: usize) -> Result<Value, Memory>
        requires { number < length self.now.values }
        ensures { IfOk result (λ v. v ≡ value_at self.now.values number) }
    {
        self.values.get(self.alloc(), number)
    }

    /// What a cell holds, made anew, or `None` exactly where the store has no such cell.
    pub fn value(&self, cell: &Cell) -> Result<Option<Value>, Memory>
        ensures { IfOk result (λ v. v ≡ map.get self.now.cells cell.now) }
    {
        match self.number(cell) {
            Some(number) => {
                let value = self.value_of(number)?;
                Ok(Some(value))
            }
            None => Ok(None),
        }
    }

    /// The number of a base alone. No cell changes.
    pub fn number_of(&mut self, base: Base) -> Result<usize, Memory>
        ensures number { IfOk result (IsNumberOf self.new.values (plain base)) }
        ensures kept { Keeps self.old.values self.new.values }
        ensures cells { self.new.cells ≡ self.old.cells }
    {
        self.values.base(base)
    }

    /// The number of a value with a contribution added. No cell changes.
    pub fn number_with(&mut self, number: usize, op: u32, c: Contribution) -> Result<usize, Memory>
        requires known { number < length self.old.values }
        // Its counts would no longer fit.
        requires fits { weight_of (value_at self.old.values number) < 2 ^ 64 - 1 }
        ensures number { IfOk result (IsNumberOf self.new.values
            (add_one op c (value_at self.old.values number))) }
        ensures kept { Keeps self.old.values self.new.values }
        ensures cells { self.new.cells ≡ self.old.cells }
    {
        self.values.add(number, op, c)
    }

    /// The number of a value with another folded in. No cell changes.
    fn number_folded(&mut self, op: u32, to: usize, from: usize) -> Result<usize, Memory>
        requires to { to < length self.old.values }
        requires from { from < length self.old.values }
        requires fits { weight_of (value_at self.old.values to)
            + weight_of (value_at self.old.values from) < 2 ^ 64 }
        ensures number { IfOk result (IsNumberOf self.new.values
            (fold_in (value_at self.old.values to) op (value_at self.old.values from))) }
        ensures kept { Keeps self.old.values self.new.values }
        ensures cells { self.new.cells ≡ self.old.cells }
    {
        let alloc = self.alloc();
        self.values.fold(alloc, op, to, from)
    }

    /// Whether two numbers stand for equal values.
    pub fn same(&mut self, one: usize, other: usize) -> Result<bool, Memory>
        requires one { one < length self.old.values }
        requires other { other < length self.old.values }
        ensures is { IfOk result (λ same. same
            ≡ same_value (value_at self.old.values one) (value_at self.old.values other)) }
        ensures kept { self.new ≡ self.old }
    {
        let alloc = self.alloc();
        self.values.same(alloc, one, other)
    }

    /// Puts the value of a number into a cell, which the store may have or not.
    pub(crate) fn hold(&mut self, cell: Cell, number: usize) -> Result<(), Memory>
        requires { number < length self.old.values }
        ensures ok { OnOk result (self.new.cells
            ≡ map.insert self.old.cells cell (value_at self.old.values number)) }
        ensures values { self.new.values ≡ self.old.values }
    {
        self.cells.insert(cell, number)?;
        Ok(())
    }

    /// Puts the value of a number into a cell that is there.
    pub(crate) fn put(&mut self, cell: Cell, number: usize)
        requires there { map.contains_key self.old.cells cell ≡ true }
        requires known { number < length self.old.values }
        ensures cells { self.new.cells
            ≡ map.insert self.old.cells cell (value_at self.old.values number) }
        ensures values { self.new.values ≡ self.old.values }
    {
        if let Some(slot) = self.cells.get_mut(&cell) {
            *slot = number;
        }
    }

    /// Adds a contribution to the value of a cell that is there.
    pub(crate) fn add(&mut self, cell: Cell, op: u32, c: Contribution) -> Result<(), Memory>
        requires there { map.contains_key self.old.cells cell ≡ true }
        requires fits { weight_of (value_in self.old.cells cell) < 2 ^ 64 - 1 }
        ensures ok { OnOk result (self.new.cells ≡ with_added self.old.cells cell op c) }
        ensures err { OnErr result (self.new.cells ≡ self.old.cells) }
        ensures kept { Keeps self.old.values self.new.values }
    {
        let number = self.number_at(&cell);
        let more = self.number_with(number, op, c)?;
        self.put(cell, more);
        Ok(())
    }

    /// Folds what a cell holds into another.
    pub(crate) fn fold(&mut self, op: u32, from: Cell, to: Cell) -> Result<(), Memory>
        requires from { map.contains_key self.old.cells from ≡ true }
        requires to { map.contains_key self.old.cells to ≡ true }
        requires fits { weight_of (value_in self.old.cells to)
            + weight_of (value_in self.old.cells from) < 2 ^ 64 }
        ensures ok { OnOk result (self.new.cells ≡ map.insert self.old.cells to
            (fold_in (value_in self.old.cells to) op (value_in self.old.cells from))) }
        ensures err { OnErr result (self.new.cells ≡ self.old.cells) }
        ensures kept { Keeps self.old.values self.new.values }
    {
        let source = self.number_at(&from);
        let target = self.number_at(&to);
        let folded = self.number_folded(op, target, source)?;
        self.put(to, folded);
        Ok(())
    }
}
