//! A log that keeps each rule of `check`.

ghost use Rattle.std.specs.Prelude.{◌≡◌, ◌≢◌, None, IfOk, OnOk, IfErr};
ghost use Rattle.semantics.specs.declared.command.Command.TheVariants.{Check};
ghost use Rattle.verdict.specs.declared.stop.Stop.{Stop};
ghost use Rattle.log_findings.specs.Findings as faults;
ghost use Rattle.vocabulary.specs.Prelude.{HasNoCycle};
ghost use Rattle.verdict.specs.Narrow.{Passes};
ghost use Rattle.verdict.specs.Stages.{FindsCycle, FindsFault, IsStop};
ghost use Rattle.log_findings.specs.Faultless.{AreFaultless};

use crate::judged::Judged;
use crate::sorted::{Sorted, sorted_parts};
use crate::stop::Stop;
use log_findings::{fault_found, serial_fault};
use logs::Log;
use point_set::PointSet;
use region_tree::ArenaSet;
use replay::count_reads;
use semantics::Fault;
use spy_grammar::Code;
use std::alloc::Global;
use std::marker::Model;

/// A log that keeps each rule of `check`. Contracts see its tables.
#[derive(Drop)]
pub struct Declared<'a, P: PointSet + Copy> {
    log: Log<'a, P>,
}

impl<'a, P: PointSet + Copy> Model for Declared<'a, P> {
    ghost use Rattle.std.specs.Prelude.{◌≡◌, None};
    ghost use Rattle.semantics.specs.declared.command.Command.TheVariants.{Check};
    ghost use Rattle.vocabulary.specs.Prelude.{Tables};
    ghost use Rattle.log_findings.specs.Findings.{table_fault};

    ghost Value = { Tables };

    ghost view = { λ d. d.log };

    ghost invariant = { λ d. table_fault Check d.log ≡ None };
}

/// The fault that `check` shows of a log's tables.
fn table_fault<'a, P: ArenaSet<'a>>(alloc: Global, log: &Log<'a, P>) -> Option<Fault>
    ensures { result ≡ faults.table_fault Check log.now }
{
    if let Some(fault) = serial_fault(alloc, log) {
        return Some(fault);
    }
    match log.mapped() {
        Ok(()) => None,
        Err(unmapped) => Some(Fault {
            line: unmapped.line,
            code: Code::Unmapped,
        }),
    }
}

impl<'a, P: ArenaSet<'a>> Declared<'a, P> {
    /// The log, if its serial order and its maps have no fault. It does not fail where memory runs out.
    pub fn of(alloc: Global, log: Log<'a, P>) -> Result<Declared<'a, P>, Stop>
        ensures declared { IfOk result (λ d. d ≡ log.entry) }
        ensures keeps { OnOk result (faults.table_fault Check log.entry ≡ None) }
        ensures fault { IfErr result (IsStop (FindsFault log.entry)) }
        ensures no_memory { IfErr result (λ stop. stop ≢ Stop.Memory) }
    {
        match table_fault(alloc, &log) {
            None => Ok(Declared { log }),
            Some(fault) => {
                log.let_go();
                Err(Stop::Found(fault_found(fault.line, fault.code)))
            }
        }
    }

    /// What every such log keeps: each rule of `check`. There is nothing to do.
    pub fn is_faultless(&self)
        ensures { AreFaultless self.now }
    {
        self.log.is_declared();
    }

    /// The log as one that was judged, where it is known to pass the stages.
    pub(crate) fn into_judged(self) -> Judged<'a, P>
        requires { Passes self }
        ensures { result ≡ self.entry }
    {
        self.log.is_declared();
        let reads = count_reads(&self.log);
        Judged::of(self.log, reads)
    }

    /// The log with its nodes sorted, or the cycle that is shown.
    pub fn sort(self, alloc: Global) -> Result<Sorted<'a, P>, Stop>
        ensures sorted { IfOk result (λ s. s ≡ self.entry) }
        ensures no_cycle { OnOk result (HasNoCycle self.entry) }
        ensures stop { IfErr result (IsStop (FindsCycle self.entry)) }
    {
        match sorted_parts(alloc, &self.log) {
            Ok((sorting, firsts)) => Ok(Sorted::of(self.log, sorting, firsts)),
            Err(stop) => {
                self.log.let_go();
                Err(stop)
            }
        }
    }
}
