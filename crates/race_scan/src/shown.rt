//! The race of a log that is shown.

ghost use Rattle.std.specs.Prelude.{◌≡◌, true, IfErr, IfOk, MatchOption, None, OnOk, length};
ghost use Rattle.vocabulary.specs.Prelude.{graph_of, IsRaceFree};
ghost use Rattle.semantics.specs.Faults.{unmapped_fault};
ghost use Rattle.event_graph.specs.Orders.{IsOrderOf};
ghost use Rattle.point_laws.specs.Alike.{AreFirsts};
ghost use Rattle.race_scan.specs.Ends.{IsEndOf, IsShownIn};
ghost use Rattle.race_scan.specs.Gathered.{AreAllCellsOf, cell_accesses_before};

use crate::accesses_by_node::{cell_accesses_of, few_cell_accesses, field_accesses_of};
use cell_races::{CellAccess, FoundRace, SortedNodes, are_free_by_waits, shown_race};
use cut_logs::CutLog;
use logs::Log;
use memory::Memory;
use point_kinds::FirstPoints;
use reach_marks::Reach;
use region_tree::ArenaSet;
use semantics::Cell;
use std::alloc::Global;

/// Why a scan finds no log free of races.
#[derive(Clone, Copy)]
pub enum ScanEnd {
    /// Nodes `a` and `b` conflict at the cell, and neither is before the other.
    Race { a: usize, b: usize, cell: Cell },
    /// Memory ran out.
    Memory,
}

impl From<Memory> for ScanEnd {
    ghost use Rattle.std.specs.Prelude.{◌≡◌};
    ghost use Rattle.race_scan.specs.declared.shown.ScanEnd.TheVariants.{Memory};

    ghost from_gives = { λ _ e. e ≡ Memory };

    fn from(_: Memory) -> ScanEnd {
        ScanEnd::Memory
    }
}

/// The race that is shown of a log that may be cut, by the marks of all nodes.
fn race_by_marks<'a, P: ArenaSet<'a>>(
    alloc: Global,
    log: &CutLog<'_, 'a, '_, P>,
    sorted: &SortedNodes<'_>,
    cell_accesses: Vec<CellAccess>,
) -> Result<Option<FoundRace>, Memory>
    requires graph { sorted.now.graph.now ≡ graph_of log.now.nodes }
    requires order { IsOrderOf sorted.now.graph.now sorted.now.order.now }
    requires cells { AreAllCellsOf log.now sorted.now.order.now cell_accesses.items }
    ensures { IfOk result (λ r. MatchOption r (IsRaceFree log.now) (IsShownIn log.now)) }
{
    let _linked = sorted.graph.len();
    let reach = Reach::build(alloc, sorted.graph, sorted.order)?;
    let race = shown_race(alloc, sorted.graph, sorted.order, &reach, cell_accesses)?;
    Ok(race)
}

/// The race that is shown of a log that may be cut, by what its nodes do at cells. The marks of all nodes are made only where no waits are found that show that no two nodes race.
fn race_at_cells<'a, P: ArenaSet<'a>>(
    alloc: Global,
    log: &CutLog<'_, 'a, '_, P>,
    sorted: &SortedNodes<'_>,
    cell_accesses: Vec<CellAccess>,
) -> Result<Option<FoundRace>, Memory>
    requires graph { sorted.now.graph.now ≡ graph_of log.now.nodes }
    requires order { IsOrderOf sorted.now.graph.now sorted.now.order.now }
    requires all { cell_accesses.items
        ≡ cell_accesses_before log.now sorted.now.order.now (length sorted.now.order.now) }
    ensures { IfOk result (λ r. MatchOption r (IsRaceFree log.now) (IsShownIn log.now)) }
{
    let _linked = sorted.graph.len();
    let _placed = sorted.order.places();
    let mut cell_accesses = cell_accesses;
    let is_free = are_free_by_waits(alloc, sorted.graph, sorted.order, &mut cell_accesses)?;
    if is_free {
        return Ok(None);
    }
    race_by_marks(alloc, log, sorted, cell_accesses)
}

/// Whether waits are found that show that no two nodes race even if each space that has points had point 0 alone, so that what two nodes do to a field of one instance is at one cell. It goes over no points.
fn is_free_by_fields<'a, P: ArenaSet<'a>>(
    alloc: Global,
    log: &CutLog<'_, 'a, '_, P>,
    sorted: &SortedNodes<'_>,
) -> Result<bool, Memory>
    requires graph { sorted.now.graph.now ≡ graph_of log.now.nodes }
    requires order { IsOrderOf sorted.now.graph.now sorted.now.order.now }
    ensures { IfOk result (λ free. free ≡ true → IsRaceFree log.now) }
{
    let _linked = sorted.graph.len();
    let _placed = sorted.order.places();
    let mut field_accesses = field_accesses_of(alloc, log, sorted.order.as_slice())?;
    let is_free = are_free_by_waits(alloc, sorted.graph, sorted.order, &mut field_accesses)?;
    Ok(is_free)
}

/// The race that is shown of a log that may be cut, by fields first. What nodes do at cells is gathered only where that does not tell.
fn race_by_fields<'a, P: ArenaSet<'a>>(
    alloc: Global,
    log: &CutLog<'_, 'a, '_, P>,
    sorted: &SortedNodes<'_>,
) -> Result<Option<FoundRace>, Memory>
    requires graph { sorted.now.graph.now ≡ graph_of log.now.nodes }
    requires order { IsOrderOf sorted.now.graph.now sorted.now.order.now }
    ensures { IfOk result (λ r. MatchOption r (IsRaceFree log.now) (IsShownIn log.now)) }
{
    let is_free = is_free_by_fields(alloc, log, sorted)?;
    if is_free {
        return Ok(None);
    }
    let cell_accesses = cell_accesses_of(alloc, log, sorted.order.as_slice())?;
    race_at_cells(alloc, log, sorted, cell_accesses)
}

/// The race that is shown of a log that may be cut. Where nodes do little at cells, that is looked at straight away; else by fields first, for which no point is gone over.
fn race_of<'a, P: ArenaSet<'a>>(
    alloc: Global,
    log: &CutLog<'_, 'a, '_, P>,
    sorted: &SortedNodes<'_>,
) -> Result<Option<FoundRace>, Memory>
    requires graph { sorted.now.graph.now ≡ graph_of log.now.nodes }
    requires order { IsOrderOf sorted.now.graph.now sorted.now.order.now }
    ensures { IfOk result (λ r. MatchOption r (IsRaceFree log.now) (IsShownIn log.now)) }
{
    match few_cell_accesses(alloc, log, sorted.order.as_slice())? {
        Some(cell_accesses) => race_at_cells(alloc, log, sorted, cell_accesses),
        None => race_by_fields(alloc, log, sorted),
    }
}

/// Looks for the race of a log that is shown. Goes over these points alone, among which is the first of each kind, and only as long as nodes do little there where waits are found that order whatever conflicts in a field of an instance; the time is that of a sort of the accesses.
pub fn scan<'a, P: ArenaSet<'a>>(
    alloc: Global,
    log: &Log<'a, P>,
    sorted: &SortedNodes<'_>,
    firsts: &FirstPoints,
) -> Result<(), ScanEnd>
    requires mapped { unmapped_fault log.now ≡ None }
    requires graph { sorted.now.graph.now ≡ graph_of log.now.nodes }
    requires order { IsOrderOf sorted.now.graph.now sorted.now.order.now }
    requires firsts { AreFirsts log.now firsts.now }
    ensures free { OnOk result (IsRaceFree log.now) }
    ensures race { IfErr result (IsEndOf log.now) }
{
    let log = CutLog::at(log, firsts.as_slice());
    match race_of(alloc, &log, sorted)? {
        None => Ok(()),
        Some(FoundRace { a, b, cell }) => Err(ScanEnd::Race { a, b, cell }),
    }
}
