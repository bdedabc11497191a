//! From records to the log that they declare.

ghost use Rattle.std.specs.Prelude.{◌≡◌, ◌↔◌, ◌≤◌, ℕ, All, Err, IfOk, OnOk, IsTrue, None, Some, map};
ghost use Rattle.std.specs.List.Sorted.{IsStrictlyIncreasing};
ghost use Rattle.vocabulary.specs.Prelude.{Code, Good, tables_of, AreLines};
ghost use Rattle.semantics.specs.Faults.{at_line, declaration_fault};

use crate::decl_end::DeclEnd;
use crate::declaring::declarations;
use bumpalo::Bump;
use logs::Log;
use region_tree::ArenaRects;
use semantics::MOST_BYTES;
use spy_grammar::{Code, Lined, good};
use std::alloc::{AllocError, Global};

/// The log that some records declare, or the fault that is shown of its frame and its records. The lines are as many as the input has.
///
/// The sets of its spaces lie in the arena.
pub fn declare<'a, P: ArenaRects<'a>>(
    alloc: Global,
    bump: &'a Bump,
    records: &Vec<Lined>,
    lines: u32,
) -> Result<Log<'a, P>, DeclEnd>
    requires good { All (λ l. Good l.rec) records.now.items }
    requires lines { AreLines lines records.now.items }
    ensures tables { IfOk result (λ log. log ≡ tables_of records.now.items) }
    ensures faultless { OnOk result (declaration_fault lines records.now.items ≡ None) }
    ensures fault { (line : ℕ) (code : Code) → result ≡ Err (DeclEnd.Fault line code)
        → declaration_fault lines records.now.items ≡ Some (at_line code line) }
{
    match declarations(alloc, bump, records, lines) {
        Ok(tables) => match Log::of(alloc, bump, tables) {
            Ok(log) => Ok(log),
            Err(_) => Err(DeclEnd::Memory),
        },
        Err(end) => Err(end),
    }
}

/// The lines on which records stand.
fn lines_of(alloc: Global, records: &[Lined]) -> Result<Vec<u32>, AllocError>
    ensures { IfOk result (λ lines. lines.items ≡ map (λ l. l.line) records.now) }
{
    let mut lines = Vec::new(alloc);
    for l in records {
        lines.push(l.line)?;
    }
    Ok(lines)
}

/// Whether each record has a spelling.
fn are_good(records: &[Lined]) -> bool
    ensures { IsTrue result ↔ All (λ l. Good l.rec) records.now }
{
    records.iter().all(|l| good(&l.rec))
}

/// Whether each record stands on one of these many lines.
fn are_within(records: &[Lined], lines: u32) -> bool
    ensures { IsTrue result ↔ All (λ l. l.line ≤ lines) records.now }
{
    records.iter().all(|l| l.line <= lines)
}

/// Whether each number is below the next.
fn is_ascending(numbers: &[u32]) -> bool
    ensures { IsTrue result ↔ IsStrictlyIncreasing numbers.now }
{
    for k in 1..numbers.len() {
        if numbers[k - 1] >= numbers[k] {
            return false;
        }
    }
    true
}

/// Whether each record has a spelling, and the records stand on lines that ascend, each on one of these many lines: what [`declare`] asks of records.
pub fn are_log_records(alloc: Global, records: &[Lined], lines: u32) -> Result<bool, AllocError>
    ensures { IfOk result (λ are. IsTrue are
        ↔ (All (λ l. Good l.rec) records.now × AreLines lines records.now)) }
{
    if lines as u64 > MOST_BYTES || !are_good(records) || !are_within(records, lines) {
        return Ok(false);
    }
    let numbers = lines_of(alloc, records)?;
    Ok(is_ascending(&numbers))
}
