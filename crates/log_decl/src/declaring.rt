//! What records declare, or the fault of their frame and records.

ghost use Rattle.std.specs.Prelude.{◌≡◌, ◌<◌, ◌-◌, ◌^◌, ℕ, All, [], None, Some, Err, length, IfOk, OnOk};
ghost use Rattle.vocabulary.specs.Prelude.{Code, Good, records_of, AreLines, no_tables, tables_of};
ghost use Rattle.semantics.specs.Faults.{at_line, declaration_fault, header_fault, records_fault};
ghost use Rattle.log_tables.specs.Views.{Ascends};
ghost use Rattle.log_tables.specs.Regions.{regions_of};
ghost use Rattle.region_tree.specs.Sound.{IsSound};
ghost use Rattle.log_decl.specs.Ends.{IsFaultOf};
ghost use Rattle.log_decl.specs.Walk.{HasWalked};

use crate::decl_end::DeclEnd;
use crate::frame::frame_fault;
use crate::regions::judge_forest;
use crate::walk::{Walked, walk};
use bumpalo::Bump;
use log_rules::WholeLog;
use log_tables::LogTables;
use region_tree::{ArenaRects, Memory as ForestMemory};
use spy_grammar::Lined;
use std::alloc::Global;

/// Adds the records of a log up to the first that breaks a rule to tables in which nothing is declared. The two rules of the forest are left out.
fn walked<'a, P: ArenaRects<'a>>(
    tables: &mut LogTables<P>,
    alloc: Global,
    bump: &'a Bump,
    records: &[Lined],
) -> Result<Walked, ForestMemory>
    requires none { tables.old ≡ no_tables }
    requires ascends { All (λ l. Ascends l.rec) records.now }
    requires few { length records.now < 2 ^ 32 - 1 }
    requires header { header_fault 0 records.now ≡ None }
    ensures { IfOk result (λ w. HasWalked records.now w.kept tables.new w.code) }
{
    let whole = WholeLog::new(alloc, records)?;
    walk(tables, alloc, bump, &whole, records)
}

/// Adds the records of a log to tables in which nothing is declared, and judges their forest; or the fault of the first that breaks a rule.
///
/// Where the walk ends at a record that breaks a rule, a subspace before it may still be refused by the forest.
pub(crate) fn grow<'a, P: ArenaRects<'a>>(
    tables: &mut LogTables<P>,
    alloc: Global,
    bump: &'a Bump,
    records: &[Lined],
) -> Result<(), DeclEnd>
    requires none { tables.old ≡ no_tables }
    requires ascends { All (λ l. Ascends l.rec) records.now }
    requires few { length records.now < 2 ^ 32 - 1 }
    requires header { header_fault 0 records.now ≡ None }
    ensures tables { OnOk result (tables.new ≡ tables_of records.now) }
    ensures sound { OnOk result (IsSound (regions_of tables.new)) }
    ensures faultless { OnOk result (records_fault (records_of records.now) [] records.now ≡ None) }
    ensures fault { IsFaultOf result (records_fault (records_of records.now) [] records.now) }
{
    let walked = walked(tables, alloc, bump, records)?;
    judge_forest(alloc, tables, &records[..walked.kept])?;
    match walked.code {
        Some(code) => Err(DeclEnd::Fault {
            line: records[walked.kept].line,
            code,
        }),
        None => Ok(()),
    }
}

/// The tables of a log, or the fault of its frame and records that is shown. `lines` is the number of lines.
///
/// Each record has a spelling, and the lines on which the records stand ascend. That memory ran out is the only other answer.
pub(crate) fn declarations<'a, P: ArenaRects<'a>>(
    alloc: Global,
    bump: &'a Bump,
    records: &[Lined],
    lines: u32,
) -> Result<LogTables<P>, DeclEnd>
    requires good { All (λ l. Good l.rec) records.now }
    requires lines { AreLines lines records.now }
    ensures tables { IfOk result (λ tables. tables ≡ tables_of records.now) }
    ensures sound { IfOk result (λ tables. IsSound (regions_of tables)) }
    ensures faultless { OnOk result (declaration_fault lines records.now ≡ None) }
    ensures fault { (line : ℕ) (code : Code) → result ≡ Err (DeclEnd.Fault line code)
        → declaration_fault lines records.now ≡ Some (at_line code line) }
{
    if let Some(fault) = frame_fault(records, lines) {
        return Err(DeclEnd::Fault {
            line: fault.line,
            code: fault.code,
        });
    }
    let mut tables = LogTables::new(alloc);
    match grow(&mut tables, alloc, bump, records) {
        Ok(()) => Ok(tables),
        Err(end) => {
            // Dropped by a call, so that its many fields are no steps of this proof.
            drop(tables);
            Err(end)
        }
    }
}
