//! Findings, each with what a text of it asks.

ghost use Rattle.std.specs.Prelude.{◌≡◌, ◌≢◌, ◌≤◌, [], length, not, true, map, count_by};
ghost use Rattle.std.specs.List.{AllByRecursion};
ghost use Rattle.findings.specs.declared.finding.Finding.TheVariants as findings;
ghost use Rattle.findings.specs.Texts.{Good, IsInRange, small};

use findings::{DepList, EventList, Finding, PairList, lines_fit};
use semantics::{Ask, Cell, Place};
use spy_grammar::Code;
use value_terms::Value;

/// The law of events: each lies in the range of its type. There is nothing to do.
fn events_fit(events: &[u32])
    ensures { AllByRecursion IsInRange (map small events.now) }
{}

/// A fault.
pub fn fault_found(line: u32, code: Code) -> Finding
    ensures finding { result ≡ findings.Fault line code }
    ensures good { Good result }
{
    Finding::Fault { line, code }
}

/// A cycle.
pub fn cycle_found(events: EventList) -> Finding
    requires { events ≢ [] }
    ensures finding { result ≡ findings.Cycle events }
    ensures good { Good result }
{
    events_fit(events.as_slice());
    Finding::Cycle { events }
}

/// Two tasks that are not run in serial order.
pub(crate) fn unordered_found(t: u32, u: u32, place: Place) -> Finding
    ensures finding { result ≡ findings.Unordered t u place.tree place.point place.field }
    ensures good { Good result }
{
    Finding::Unordered {
        t,
        u,
        tree: place.tree,
        point: place.point,
        field: place.field,
    }
}

/// Two nodes, by their events, that race at a cell.
pub fn race_found(a: u32, b: u32, cell: Cell) -> Finding
    ensures finding { result ≡ findings.Race a b cell.inst cell.point cell.field }
    ensures good { Good result }
{
    Finding::Race {
        a,
        b,
        inst: cell.inst,
        point: cell.point,
        field: cell.field,
    }
}

/// A read of a requirement of a task, and the value that it got and the one that it should have got.
pub fn differ_found(read: Ask, got: Value, want: Value) -> Finding
    ensures finding { result ≡ findings.Differ read.task read.req read.point read.field got want }
    ensures good { Good result }
{
    got.rules();
    want.rules();
    Finding::Differ {
        task: read.task,
        req: read.req,
        point: read.point,
        field: read.field,
        got,
        want,
    }
}

/// So many tasks, operations and reads, all of them right.
pub fn accepted_found(tasks: u32, operations: u32, reads: u64) -> Finding
    ensures finding { result ≡ findings.Accepted tasks operations reads }
    ensures good { Good result }
{
    Finding::Accepted {
        tasks,
        operations,
        reads,
    }
}

/// So many tasks, of which so many pairs interfere.
pub(crate) fn ordered_found(tasks: u32, pairs: u64) -> Finding
    ensures finding { result ≡ findings.Ordered tasks pairs }
    ensures good { Good result }
{
    Finding::Ordered { tasks, pairs }
}

/// The pairs of items that interfere.
pub(crate) fn deps_found(list: DepList, items: u32, before: u64, turn: u64) -> Finding
    requires before { before ≡ count_by (λ d. d.before) list }
    requires turn { turn ≡ count_by (λ d. not d.before) list }
    ensures finding { result ≡ findings.Deps list items before turn }
    ensures good { Good result }
{
    lines_fit(list.as_slice());
    Finding::Deps {
        list,
        items,
        before,
        turn,
    }
}

/// Waits that others imply, among so many.
pub(crate) fn spare_found(list: PairList, waits: u64) -> Finding
    requires { length list ≤ waits }
    ensures finding { result ≡ findings.Spare list waits }
    ensures good { Good result }
{
    lines_fit(list.as_slice());
    Finding::Spare { list, waits }
}
