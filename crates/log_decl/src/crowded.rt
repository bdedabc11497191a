//! The fault of a crowded log, told by what is kept of it.

ghost use Rattle.std.specs.Prelude.{◌≡◌, ◌<◌, ◌≤◌, ◌-◌, ◌^◌, [], All, List, None, Some, length, IfOk};
ghost use Rattle.vocabulary.specs.Prelude.{Good, Lined, records_of};
ghost use Rattle.semantics.specs.Faults.{declaration_fault, header_fault, records_fault};
ghost use Rattle.semantics.specs.declared.limits.TheConstants.{MOST_BYTES};
ghost use Rattle.log_tables.specs.Views.{Ascends};
ghost use Rattle.crowded_logs.specs.Crowded.{IsKeptAs};

use crate::decl_end::DeclEnd;
use crate::declaring::grow;
use bumpalo::Bump;
use crowded_logs::Frame;
use log_tables::LogTables;
use point_set::RectSet;
use region_tree::{ArenaRects, Memory};
use semantics::Fault;
use spy_grammar::Lined;
use std::alloc::Global;

/// The fault of the first of some records that breaks a rule, if one does. The sets of their spaces lie in the arena.
fn records_fault<'a, P: ArenaRects<'a>>(
    alloc: Global,
    bump: &'a Bump,
    records: &[Lined],
) -> Result<Option<Fault>, Memory>
    requires ascends { All (λ l. Ascends l.rec) records.now }
    requires few { length records.now < 2 ^ 32 - 1 }
    requires header { header_fault 0 records.now ≡ None }
    ensures { IfOk result (λ fault. fault ≡ records_fault (records_of records.now) [] records.now) }
{
    let mut tables: LogTables<P> = LogTables::new(alloc);
    let end = grow(&mut tables, alloc, bump, records);
    // Dropped by a call, so that its many fields are no steps of this proof.
    drop(tables);
    match end {
        Ok(()) => Ok(None),
        Err(DeclEnd::Fault { line, code }) => Ok(Some(Fault { line, code })),
        Err(DeclEnd::Memory) => Err(Memory),
    }
}

/// The fault of what is kept of a crowded log whose frame has none.
fn kept_fault(alloc: Global, kept: &[Lined]) -> Result<Option<Fault>, Memory>
    requires ascends { All (λ l. Ascends l.rec) kept.now }
    requires few { length kept.now < 2 ^ 32 - 1 }
    requires header { header_fault 0 kept.now ≡ None }
    ensures { IfOk result (λ fault. fault ≡ records_fault (records_of kept.now) [] kept.now) }
{
    let bump = Bump::new(alloc);
    records_fault::<RectSet<'_>>(alloc, &bump, kept)
}

/// The fault of a crowded log, by the records that are kept of it, what is noted of its frame, and how many lines it has. A crowded log has one.
pub fn crowded_fault(
    alloc: Global,
    kept: &[Lined],
    frame: Frame,
    lines: u32,
) -> Result<Fault, Memory>
    requires good { All (λ l. Good l.rec) kept.now }
    requires few_kept { length kept.now ≤ MOST_BYTES }
    requires few_lines { lines ≤ MOST_BYTES }
    requires log { (log : List Lined) × IsKeptAs log kept.now frame }
    ensures { IfOk result (λ fault. (log : List Lined) → IsKeptAs log kept.now frame
        → declaration_fault lines log ≡ Some fault) }
{
    if let Some(fault) = frame.fault(lines) {
        return Ok(fault);
    }
    match kept_fault(alloc, kept)? {
        Some(fault) => Ok(fault),
        // A record of a crowded log is one too many.
        None => unreachable!(),
    }
}
