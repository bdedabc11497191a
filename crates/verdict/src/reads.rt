//! The reads of a log, replayed.

ghost use Rattle.std.specs.Prelude.{◌≡◌, None, IfOk, IfErr, OnOk};
ghost use Rattle.semantics.specs.declared.command.Command.TheVariants.{Check};
ghost use Rattle.vocabulary.specs.Prelude.{graph_of, IsRaceFree, shown_difference};
ghost use Rattle.outcomes.specs.Outcome.{IsSound};
ghost use Rattle.semantics.specs.Counts.{read_count};
ghost use Rattle.replay.specs.Ends.{IsEndOf};
ghost use Rattle.long_values.specs.LongOutcome.{CheckFindsLong, IsSoundLong};
ghost use Rattle.point_laws.specs.Alike.{AreFirsts};
ghost use Rattle.log_findings.specs.Findings.{table_fault};
ghost use Rattle.log_findings.specs.Sorted.{AreSorted};
ghost use Rattle.verdict.specs.Stages.{FindsDifference, IsStop};

use crate::stop::Stop;
use log_findings::{Sorting, differ_found};
use logs::Log;
use point_kinds::FirstPoints;
use region_tree::ArenaSet;
use replay::{Reads, ReplayEnd, replay};
use semantics::Ask;
use serial_exec::Versions;
use std::alloc::Global;

/// The replay of a log, at those of its first points that are read, over the values that sequential execution makes there.
fn replayed<'a, P: ArenaSet<'a>>(
    alloc: Global,
    log: &Log<'a, P>,
    sorting: &Sorting,
    firsts: &FirstPoints,
) -> Result<Reads, ReplayEnd>
    requires faultless { table_fault Check log.now ≡ None }
    requires sorted { AreSorted (graph_of log.now.nodes) sorting.now }
    requires firsts { AreFirsts log.now firsts.now }
    ensures right { OnOk result (shown_difference log.now ≡ None) }
    ensures count { IfOk result (λ reads. reads.count ≡ read_count log.now) }
    ensures end { IfErr result (IsEndOf log.now) }
{
    let read = firsts.read_in(alloc, log)?;
    match Versions::build_on(alloc, log, read.as_slice()) {
        Ok(versions) => replay(alloc, log, &sorting.order, &versions, &read),
        Err(_) => Err(ReplayEnd::Memory),
    }
}

/// How many reads there are, if each is right in every interleaving, or the read that is shown to differ in every interleaving.
pub(crate) fn judged_reads<'a, P: ArenaSet<'a>>(
    alloc: Global,
    log: &Log<'a, P>,
    sorting: &Sorting,
    firsts: &FirstPoints,
) -> Result<u64, Stop>
    requires faultless { table_fault Check log.now ≡ None }
    requires sorted { AreSorted (graph_of log.now.nodes) sorting.now }
    requires firsts { AreFirsts log.now firsts.now }
    requires free { IsRaceFree log.now }
    ensures right { OnOk result (shown_difference log.now ≡ None) }
    ensures sound { OnOk result (IsSound log.now) }
    ensures count { IfOk result (λ count. count ≡ read_count log.now) }
    ensures stop { IfErr result (IsStop (FindsDifference log.now)) }
    ensures sound_long { OnOk result (IsSoundLong log.now) }
    ensures stop_long { IfErr result (IsStop (CheckFindsLong log.now)) }
{
    log.is_declared();
    match replayed(alloc, log, sorting, firsts) {
        Ok(reads) => Ok(reads.count),
        Err(
            ReplayEnd::Differ {
                task,
                req,
                point,
                field,
                got,
                want,
            },
        ) => {
            let read = Ask {
                task,
                req,
                point,
                field,
            };
            Err(Stop::Found(differ_found(read, got, want)))
        }
        Err(ReplayEnd::Memory) => Err(Stop::Memory),
    }
}
