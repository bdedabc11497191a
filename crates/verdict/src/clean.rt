//! A log without a race.

ghost use Rattle.std.specs.Prelude.{◌≡◌, IfOk, IfErr, OnOk};
ghost use Rattle.vocabulary.specs.Prelude.{HasNoCycle, IsRaceFree};
ghost use Rattle.findings.specs.Texts as texts;
ghost use Rattle.outcomes.specs.Outcome.{IsSound, WhyFinds};
ghost use Rattle.long_values.specs.LongOutcome.{CheckFindsLong, IsSoundLong};
ghost use Rattle.verdict.specs.Narrow.{Passes};
ghost use Rattle.verdict.specs.Stages.{FindsDifference, IsStop};
ghost use Rattle.log_findings.specs.Faultless.{AreFaultless};

use crate::judged::Judged;
use crate::sorted::Sorted;
use crate::stop::Stop;
use findings::Finding;
use memory::Memory;
use point_set::PointSet;
use region_tree::ArenaSet;
use semantics::Ask;
use std::alloc::Global;
use std::marker::Model;

/// A log that keeps each rule of `check` and has neither a cycle nor a race. Contracts see its tables.
#[derive(Drop)]
pub struct Clean<'a, P: PointSet + Copy> {
    sorted: Sorted<'a, P>,
}

impl<'a, P: PointSet + Copy> Model for Clean<'a, P> {
    ghost use Rattle.vocabulary.specs.Prelude.{IsRaceFree, Tables};

    ghost Value = { Tables };

    ghost view = { λ c. c.sorted };

    ghost invariant = { λ c. IsRaceFree c.sorted };
}

impl<'a, P: ArenaSet<'a>> Clean<'a, P> {
    /// The log, of which no two nodes race.
    pub(crate) fn of(sorted: Sorted<'a, P>) -> Clean<'a, P>
        requires { IsRaceFree sorted }
        ensures { result ≡ sorted.entry }
    {
        Clean { sorted }
    }

    /// What every clean log keeps: each rule of `check`, and that it has neither a cycle nor a race. There is nothing to do.
    pub fn is_race_free(&self)
        ensures faultless { AreFaultless self.now }
        ensures no_cycle { HasNoCycle self.now }
        ensures free { IsRaceFree self.now }
    {
        self.sorted.has_no_cycle();
    }

    /// What `why` finds: the links of the read that is asked for, or that there is none.
    pub fn read_finding(&self, alloc: Global, ask: &Ask) -> Result<Finding, Memory>
        ensures found { IfOk result (WhyFinds self.now ask.now) }
        ensures text { IfOk result texts.Good }
    {
        self.sorted.read_finding(alloc, ask)
    }

    /// Lets the log go.
    pub(crate) fn let_go(self) {
        self.sorted.let_go();
    }

    /// The log, if each of its reads is right in every interleaving, or the read that is shown to differ in every interleaving. Told by long values, it is the same.
    pub fn replay(self, alloc: Global) -> Result<Judged<'a, P>, Stop>
        ensures judged { IfOk result (λ j. j ≡ self.entry) }
        ensures passes { OnOk result (Passes self.entry) }
        ensures sound { OnOk result (IsSound self.entry) }
        ensures stop { IfErr result (IsStop (FindsDifference self.entry)) }
        ensures sound_long { OnOk result (IsSoundLong self.entry) }
        ensures stop_long { IfErr result (IsStop (CheckFindsLong self.entry)) }
    {
        match self.sorted.reads(alloc) {
            Ok(reads) => Ok(Judged::of(self.sorted.into_log(), reads)),
            Err(stop) => {
                self.sorted.let_go();
                Err(stop)
            }
        }
    }
}
