//! A log whose run computed what the sequential program computes.

ghost use Rattle.std.specs.Prelude.{◌≡◌, None};
ghost use Rattle.findings.specs.Texts as texts;
ghost use Rattle.semantics.specs.declared.command.Command.TheVariants.{Check};
ghost use Rattle.outcomes.specs.Outcome.{CheckFinds, IsSound};
ghost use Rattle.semantics.specs.Counts.{read_count};
ghost use Rattle.log_findings.specs.Findings.{table_fault};
ghost use Rattle.log_findings.specs.Faultless.{AreFaultless};

use findings::Finding;
use log_findings::{accepted_found, operation_count, task_count};
use logs::Log;
use point_set::PointSet;
use region_tree::ArenaSet;
use std::marker::Model;

/// A log that keeps each rule of `check`, has neither a cycle nor a race, and of which each read is right in every interleaving. Contracts see its tables.
#[derive(Drop)]
pub struct Judged<'a, P: PointSet + Copy> {
    log: Log<'a, P>,
    reads: u64,
}

impl<'a, P: PointSet + Copy> Model for Judged<'a, P> {
    ghost use Rattle.std.specs.Prelude.{◌≡◌, None};
    ghost use Rattle.semantics.specs.declared.command.Command.TheVariants.{Check};
    ghost use Rattle.semantics.specs.Counts.{read_count};
    ghost use Rattle.outcomes.specs.Outcome.{IsSound};
    ghost use Rattle.vocabulary.specs.Prelude.{Tables};
    ghost use Rattle.log_findings.specs.Findings.{table_fault};

    ghost Value = { Tables };

    ghost view = { λ j. j.log };

    ghost invariant = { λ j. (table_fault Check j.log ≡ None) × IsSound j.log × (j.reads ≡ read_count j.log) };
}

impl<'a, P: ArenaSet<'a>> Judged<'a, P> {
    /// The log, all of whose so many reads are right.
    pub(crate) fn of(log: Log<'a, P>, reads: u64) -> Judged<'a, P>
        requires faultless { table_fault Check log ≡ None }
        requires sound { IsSound log }
        requires count { reads ≡ read_count log }
        ensures { result ≡ log.entry }
    {
        Judged { log, reads }
    }

    /// Lets the log go.
    pub(crate) fn let_go(self) {
        self.log.let_go();
    }

    /// What every judged log keeps: each rule of `check`, and that its run computed what sequential execution computes. There is nothing to do.
    pub fn is_sound(&self)
        ensures faultless { AreFaultless self.now }
        ensures sound { IsSound self.now }
    {
        self.log.is_declared();
    }

    /// How many tasks, operations and reads were judged. No memory is taken.
    pub fn finding(&self) -> Finding
        ensures found { CheckFinds self.now result }
        ensures text { texts.Good result }
    {
        accepted_found(
            task_count(&self.log),
            operation_count(&self.log),
            self.reads,
        )
    }
}
