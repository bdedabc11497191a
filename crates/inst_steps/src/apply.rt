//! What a move does to a store.

ghost use Rattle.std.specs.Prelude.{◌≡◌, true, OnOk, OnErr};
ghost use Rattle.std.specs.FinMap as map;
ghost use Rattle.vocabulary.specs.Prelude.{plain};
ghost use Rattle.shared_values.specs.Arenas.{Keeps};
ghost use Rattle.inst_steps.specs.Stores.{HasCells, IsLight, after_move, value_in};

use crate::store::Store;
use semantics::{Cell, Move};
use value_terms::{Base, Contribution, Memory};

impl Store {
    /// Copies what a cell holds into another, by its number.
    fn copy(&mut self, from: Cell, to: Cell)
        requires from { map.contains_key self.old.cells from ≡ true }
        requires to { map.contains_key self.old.cells to ≡ true }
        ensures cells { self.new.cells ≡ map.insert self.old.cells to (value_in self.old.cells from) }
        ensures values { self.new.values ≡ self.old.values }
    {
        let number = self.number_at(&from);
        self.put(to, number);
    }

    /// Puts a base alone into a cell.
    fn put_base(&mut self, cell: Cell, base: Base) -> Result<(), Memory>
        requires { map.contains_key self.old.cells cell ≡ true }
        ensures ok { OnOk result (self.new.cells ≡ map.insert self.old.cells cell (plain base)) }
        ensures err { OnErr result (self.new.cells ≡ self.old.cells) }
        ensures kept { Keeps self.old.values self.new.values }
    {
        let number = self.number_of(base)?;
        self.put(cell, number);
        Ok(())
    }

    /// Does a move: what its cells hold afterwards is what the definition of its effect gives. Where memory runs out they hold what they held.
    pub fn apply(&mut self, step: &Move) -> Result<(), Memory>
        requires cells { HasCells self.old.cells step.now }
        // Its counts would no longer fit.
        requires light { IsLight self.old.cells step.now }
        ensures ok { OnOk result (self.new.cells ≡ after_move step.now self.old.cells) }
        ensures err { OnErr result (self.new.cells ≡ self.old.cells) }
        ensures kept { Keeps self.old.values self.new.values }
    {
        match *step {
            Move::Read { .. } => Ok(()),
            Move::Write { task, cell } => self.put_base(cell, Base::Out(task)),
            Move::Reduce {
                task,
                req,
                op,
                cell,
            } => self.add(cell, op, Contribution { task, req }),
            Move::Copy { from, to } => {
                self.copy(from, to);
                Ok(())
            }
            Move::Put { cell, n } => self.put_base(cell, Base::Const(n)),
            Move::Reset { cell } => self.put_base(cell, Base::Ident),
            Move::Fold { op, from, to } => self.fold(op, from, to),
        }
    }
}
