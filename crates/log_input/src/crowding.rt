//! A crowded log, as its records are read one by one.

ghost use Rattle.std.specs.Prelude.{◌≡◌, ◌+◌, ◌<◌, ◌≤◌, ◌^◌, ◌∷◌, [], ◌++◌, All, List, length, IfOk, OnOk};
ghost use Rattle.vocabulary.specs.Prelude.{Good, Lined};
ghost use Rattle.log_input.specs.Crowding.{IsCrowding};

use crate::answered::Answered;
use crate::asked::AskedIds;
use crowded_logs::Frame;
use spy_grammar::Lined;
use std::alloc::{AllocError, Global};

/// What is kept of a crowded log as far as its records are read: the first ones, and of the later ones those that answer what no kept one did.
#[derive(Drop)]
pub(crate) struct Crowding {
    pub(crate) kept: Vec<Lined>,
    pub(crate) frame: Frame,
    pub(crate) asked: AskedIds,
    pub(crate) answered: Answered,
}

impl Crowding {
    /// The first records are read.
    pub(crate) fn begin(alloc: Global, first: Vec<Lined>) -> Result<Crowding, AllocError>
        requires { length first.items < 2 ^ 32 }
        ensures kept { IfOk result (λ c. c.kept.items ≡ first.items) }
        ensures crowding { IfOk result (IsCrowding first.items []) }
        ensures count { IfOk result (λ c. c.frame.count ≡ length first.items) }
    {
        let asked = AskedIds::by(alloc, &first)?;
        let frame = Frame::of(&first);
        Ok(Crowding {
            kept: first,
            frame,
            asked,
            answered: Answered::new(alloc),
        })
    }

    /// One record more is read.
    pub(crate) fn read(&mut self, l: Lined) -> Result<(), AllocError>
        requires { self.old.frame.count < 2 ^ 32 }
        ensures crowding { OnOk result ((first later : List Lined) → IsCrowding first later self.old
            → IsCrowding first (later ++ l ∷ []) self.new) }
        ensures good { OnOk result (Good l.rec → All (λ k. Good k.rec) self.old.kept.items
            → All (λ k. Good k.rec) self.new.kept.items) }
        ensures few { OnOk result (length self.new.kept.items ≤ length self.old.kept.items + 1) }
        ensures count { OnOk result (self.new.frame.count ≡ self.old.frame.count + 1) }
    {
        self.frame = self.frame.with(&l);
        if self.answered.lacks(&self.asked, &l.rec) {
            self.answered.add(&self.asked, &l.rec)?;
            self.kept.push(l)?;
        }
        Ok(())
    }
}
