//! A log whose nodes are sorted.

ghost use Rattle.std.specs.Prelude.{◌≡◌, None, IfOk, IfErr, OnOk};
ghost use Rattle.semantics.specs.declared.command.Command.TheVariants.{Check};
ghost use Rattle.semantics.specs.Counts.{read_count};
ghost use Rattle.vocabulary.specs.Prelude.{graph_of, HasNoCycle, IsRaceFree, shown_difference};
ghost use Rattle.findings.specs.Texts as texts;
ghost use Rattle.outcomes.specs.Outcome.{IsSound, WhyFinds};
ghost use Rattle.long_values.specs.LongOutcome.{CheckFindsLong, IsSoundLong};
ghost use Rattle.point_laws.specs.Alike.{AreFirsts};
ghost use Rattle.verdict.specs.declared.stop.Stop.{Stop};
ghost use Rattle.log_findings.specs.Findings.{table_fault};
ghost use Rattle.log_findings.specs.Sorted.{AreSorted};
ghost use Rattle.verdict.specs.Stages.{FindsCycle, FindsDifference, FindsRace, IsStop};
ghost use Rattle.log_findings.specs.Faultless.{AreFaultless};

use crate::clean::Clean;
use crate::reads::judged_reads;
use crate::stop::Stop;
use findings::Finding;
use log_findings::{Sorting, Unsorted, cycle_found, event_at, race_found, sort_log};
use logs::Log;
use memory::Memory;
use point_kinds::FirstPoints;
use point_set::PointSet;
use race_scan::{ScanEnd, SortedNodes, scan};
use read_findings::read_finding;
use region_tree::ArenaSet;
use semantics::Ask;
use std::alloc::Global;
use std::marker::Model;

/// A log that keeps each rule of `check` and has no cycle, with its nodes sorted. Contracts see its tables.
#[derive(Drop)]
pub struct Sorted<'a, P: PointSet + Copy> {
    log: Log<'a, P>,
    sorting: Sorting,
    firsts: FirstPoints,
}

impl<'a, P: PointSet + Copy> Model for Sorted<'a, P> {
    ghost use Rattle.std.specs.Prelude.{◌≡◌, None};
    ghost use Rattle.semantics.specs.declared.command.Command.TheVariants.{Check};
    ghost use Rattle.vocabulary.specs.Prelude.{graph_of, Tables};
    ghost use Rattle.point_laws.specs.Alike.{AreFirsts};
    ghost use Rattle.log_findings.specs.Findings.{table_fault};
    ghost use Rattle.log_findings.specs.Sorted.{AreSorted};

    ghost Value = { Tables };

    ghost view = { λ s. s.log };

    ghost invariant = { λ s. (table_fault Check s.log ≡ None) × AreSorted (graph_of s.log.nodes) s.sorting
        × AreFirsts s.log s.firsts };
}

/// The nodes of a log sorted, or the cycle that is shown.
fn sorting_of_log<'a, P: ArenaSet<'a>>(alloc: Global, log: &Log<'a, P>) -> Result<Sorting, Stop>
    requires { table_fault Check log.now ≡ None }
    ensures sorted { IfOk result (AreSorted (graph_of log.now.nodes)) }
    ensures stop { IfErr result (IsStop (FindsCycle log.now)) }
{
    log.is_declared();
    match sort_log(alloc, log) {
        Ok(sorting) => Ok(sorting),
        Err(Unsorted::Cycle(events)) => Err(Stop::Found(cycle_found(events))),
        Err(Unsorted::Memory) => Err(Stop::Memory),
    }
}

/// The first points of a log, one of each kind.
fn firsts_of<'a, P: ArenaSet<'a>>(alloc: Global, log: &Log<'a, P>) -> Result<FirstPoints, Stop>
    ensures firsts { IfOk result (AreFirsts log.now) }
    ensures stop { IfErr result (λ stop. stop ≡ Stop.Memory) }
{
    match FirstPoints::of(alloc, log) {
        Ok(firsts) => Ok(firsts),
        Err(_) => Err(Stop::Memory),
    }
}

/// The nodes of a log sorted, or the cycle that is shown, and its first points.
pub(crate) fn sorted_parts<'a, P: ArenaSet<'a>>(
    alloc: Global,
    log: &Log<'a, P>,
) -> Result<(Sorting, FirstPoints), Stop>
    requires { table_fault Check log.now ≡ None }
    ensures sorted { IfOk result (λ parts. AreSorted (graph_of log.now.nodes) parts.0) }
    ensures firsts { IfOk result (λ parts. AreFirsts log.now parts.1) }
    ensures stop { IfErr result (IsStop (FindsCycle log.now)) }
{
    let sorting = match sorting_of_log(alloc, log) {
        Ok(sorting) => sorting,
        Err(stop) => return Err(stop),
    };
    match firsts_of(alloc, log) {
        Ok(firsts) => Ok((sorting, firsts)),
        Err(stop) => {
            drop(sorting);
            Err(stop)
        }
    }
}

/// Whether no two nodes race, or else the race that is shown.
fn raced<'a, P: ArenaSet<'a>>(
    alloc: Global,
    log: &Log<'a, P>,
    sorting: &Sorting,
    firsts: &FirstPoints,
) -> Result<(), Stop>
    requires faultless { table_fault Check log.now ≡ None }
    requires sorted { AreSorted (graph_of log.now.nodes) sorting.now }
    requires firsts { AreFirsts log.now firsts.now }
    ensures free { OnOk result (IsRaceFree log.now) }
    ensures stop { IfErr result (IsStop (FindsRace log.now)) }
{
    let sorted = SortedNodes {
        graph: &sorting.graph,
        order: &sorting.order,
    };
    match scan(alloc, log, &sorted, firsts) {
        Ok(()) => Ok(()),
        Err(ScanEnd::Race { a, b, cell }) => {
            let found = race_found(event_at(log, a), event_at(log, b), cell);
            Err(Stop::Found(found))
        }
        Err(ScanEnd::Memory) => Err(Stop::Memory),
    }
}

impl<'a, P: ArenaSet<'a>> Sorted<'a, P> {
    /// The log with its nodes sorted.
    pub(crate) fn of(log: Log<'a, P>, sorting: Sorting, firsts: FirstPoints) -> Sorted<'a, P>
        requires faultless { table_fault Check log ≡ None }
        requires sorted { AreSorted (graph_of log.nodes) sorting }
        requires firsts { AreFirsts log firsts }
        ensures { result ≡ log.entry }
    {
        Sorted {
            log,
            sorting,
            firsts,
        }
    }

    /// The log alone.
    pub(crate) fn into_log(self) -> Log<'a, P>
        ensures log { result ≡ self.entry }
        ensures faultless { table_fault Check self.entry ≡ None }
    {
        drop(self.sorting);
        drop(self.firsts);
        self.log
    }

    /// Lets the log go.
    pub(crate) fn let_go(self) {
        drop(self.sorting);
        drop(self.firsts);
        self.log.let_go();
    }

    /// What every sorted log keeps: each rule of `check`, and that it has no cycle. There is nothing to do.
    pub fn has_no_cycle(&self)
        ensures faultless { AreFaultless self.now }
        ensures no_cycle { HasNoCycle self.now }
    {
        self.log.is_declared();
    }

    /// How many reads there are, if each is right in every interleaving, or the read that is shown to differ in every interleaving.
    pub(crate) fn reads(&self, alloc: Global) -> Result<u64, Stop>
        requires { IsRaceFree self.now }
        ensures right { OnOk result (shown_difference self.now ≡ None) }
        ensures sound { OnOk result (IsSound self.now) }
        ensures count { IfOk result (λ count. count ≡ read_count self.now) }
        ensures stop { IfErr result (IsStop (FindsDifference self.now)) }
        ensures sound_long { OnOk result (IsSoundLong self.now) }
        ensures stop_long { IfErr result (IsStop (CheckFindsLong self.now)) }
    {
        judged_reads(alloc, &self.log, &self.sorting, &self.firsts)
    }

    /// What `why` finds: the links of the read that is asked for, or that there is none.
    pub(crate) fn read_finding(&self, alloc: Global, ask: &Ask) -> Result<Finding, Memory>
        requires { IsRaceFree self.now }
        ensures found { IfOk result (WhyFinds self.now ask.now) }
        ensures text { IfOk result texts.Good }
    {
        read_finding(alloc, &self.log, &self.sorting.order, ask)
    }

    /// The log, if no two of its nodes race, or the race that is shown.
    pub fn scan(self, alloc: Global) -> Result<Clean<'a, P>, Stop>
        ensures clean { IfOk result (λ c. c ≡ self.entry) }
        ensures free { OnOk result (IsRaceFree self.entry) }
        ensures stop { IfErr result (IsStop (FindsRace self.entry)) }
    {
        match raced(alloc, &self.log, &self.sorting, &self.firsts) {
            Ok(()) => Ok(Clean::of(self)),
            Err(stop) => {
                self.let_go();
                Err(stop)
            }
        }
    }
}
