//! From the records of a nested log to what it is seen as.

ghost use Rattle.std.specs.Prelude.{◌≡◌, ℕ, All, Err, None, Some, IfErr, IfOk, OnOk};
ghost use Rattle.vocabulary.specs.Prelude.{AreLines, Code, Good, tables_of};
ghost use Rattle.spy_grammar.specs.Nested.{GoodNested};
ghost use Rattle.semantics.specs.declared.groups.Unlicensed.{Unlicensed};
ghost use Rattle.semantics.specs.Faults.{at_line, declaration_fault};
ghost use Rattle.semantics.specs.Nesting.{AreNestedLines, nested_fault, nested_tables, nesting_of, no_nesting, shown_unlicensed};
ghost use Rattle.nest_rules.specs.Pending.{pending_fault};
ghost use Rattle.nested.specs.declared.nest_end.NestEnd.{NestEnd};
ghost use Rattle.nested.specs.Nested.{AreFound, AreGroups, IsEnd, IsNestEnd, IsOrigin, IsPlainEnd, IsRefusal, TasksAreLicensed, all_nested, nested_by, nested_with};
ghost use Rattle.nested.specs.Rows.{AreNamed, rows_in};

use crate::finding::{Found, judged, licensed};
use crate::nest::Nest;
use crate::nest_end::NestEnd;
use arena_sets::ArenaRects;
use bumpalo::Bump;
use log_decl::{DeclEnd, Log, declare};
use log_tables::LogTables;
use nest_rules::{Groups, Parts, Pending, split};
use point_set::PointSet;
use spy_grammar::{Lined, NLined};
use std::alloc::Global;

/// The groups, or the fault of the first record that breaks a rule on groups.
fn groups_of<P: PointSet>(
    alloc: Global,
    tables: &LogTables<P>,
    nested: Vec<Pending>,
) -> Result<Groups, NestEnd>
    requires { All (λ p. GoodNested p.rec) nested.items }
    ensures groups { IfOk result (λ g. AreGroups tables.now nested.items g) }
    ensures end { IfErr result (λ e. IsEnd tables.now nested.items e) }
{
    match judged(alloc, tables, nested) {
        Ok(Ok(groups)) => Ok(groups),
        Ok(Err(fault)) => Err(NestEnd::Fault {
            line: fault.line,
            code: fault.code,
        }),
        Err(_) => Err(NestEnd::Memory),
    }
}

/// The groups with their privileges, or what is shown of the first child that asks for more than its group licenses.
fn found_of<'a, P: PointSet + Copy>(
    alloc: Global,
    bump: &'a Bump,
    tables: &LogTables<P>,
    groups: Groups,
) -> Result<Found<'a, P>, NestEnd>
    requires { AreNamed groups }
    ensures groups { IfOk result (λ f. f.groups ≡ groups) }
    ensures rows { IfOk result (λ f. f.rows.items ≡ rows_in tables.now groups) }
    ensures licensed { OnOk result (shown_unlicensed tables.now groups ≡ None) }
    ensures end { IfErr result (λ e. IsRefusal tables.now groups e) }
{
    match licensed(alloc, bump, tables, groups) {
        Ok(Ok(found)) => Ok(found),
        Ok(Err(shown)) => Err(NestEnd::Unlicensed(shown)),
        Err(_) => Err(NestEnd::Memory),
    }
}

/// The groups of a log with their privileges, or why the nested log is refused.
fn found_in<'a, P: PointSet + Copy>(
    alloc: Global,
    bump: &'a Bump,
    tables: &LogTables<P>,
    nested: Vec<Pending>,
) -> Result<Found<'a, P>, NestEnd>
    requires { All (λ p. GoodNested p.rec) nested.items }
    ensures found { IfOk result (λ f. AreFound tables.now nested.items f.groups f.rows.items) }
    ensures end { IfErr result (λ e. IsEnd tables.now nested.items e) }
{
    match groups_of(alloc, tables, nested) {
        Ok(groups) => match found_of(alloc, bump, tables, groups) {
            Ok(found) => Ok(found),
            Err(end) => Err(end),
        },
        Err(end) => Err(end),
    }
}

/// A log with its groups, or why the nested log is refused.
fn nest_of<'a, P: ArenaRects<'a>>(
    alloc: Global,
    bump: &'a Bump,
    log: Log<'a, P>,
    nested: Vec<Pending>,
) -> Result<Nest<'a, P>, NestEnd>
    requires good { All (λ p. GoodNested p.rec) nested.items }
    requires origin { IsOrigin log nested.items }
    ensures seen { IfOk result (λ n. n ≡ nested_with log.entry nested.items) }
    ensures faultless { OnOk result (pending_fault log.entry no_nesting nested.items ≡ None) }
    ensures licensed { OnOk result (shown_unlicensed log.entry (all_nested nested.items) ≡ None) }
    ensures end { IfErr result (λ e. IsEnd log.entry nested.items e) }
{
    match found_in(alloc, bump, log.tables(), nested) {
        Ok(found) => Ok(Nest::of(log, found)),
        Err(end) => {
            // Dropped by a call, so that its many fields are no steps of this proof.
            log.let_go();
            Err(end)
        }
    }
}

/// The log that plain records are, or why they are none.
fn plain_log_of<'a, P: ArenaRects<'a>>(
    alloc: Global,
    bump: &'a Bump,
    plain: Vec<Lined>,
    lines: u32,
) -> Result<Log<'a, P>, NestEnd>
    requires good { All (λ l. Good l.rec) plain.items }
    requires lines { AreLines lines plain.items }
    ensures tables { IfOk result (λ log. log ≡ tables_of plain.items) }
    ensures faultless { OnOk result (declaration_fault lines plain.items ≡ None) }
    ensures end { IfErr result (λ e. IsPlainEnd lines plain.items e) }
{
    match declare(alloc, bump, &plain, lines) {
        Ok(log) => Ok(log),
        Err(DeclEnd::Fault { line, code }) => Err(NestEnd::Fault { line, code }),
        Err(DeclEnd::Memory) => Err(NestEnd::Memory),
    }
}

/// What the records of a nested log are seen as, or why it is refused.
fn built<'a, P: ArenaRects<'a>>(
    alloc: Global,
    bump: &'a Bump,
    records: Vec<NLined>,
    lines: u32,
) -> Result<Nest<'a, P>, NestEnd>
    requires good { All (λ l. GoodNested l.rec) records.items }
    requires lines { AreNestedLines lines records.items }
    ensures seen { IfOk result (λ n. n ≡ nested_by records.items) }
    ensures faultless { OnOk result (nested_fault lines records.items ≡ None) }
    ensures licensed { OnOk result
        (shown_unlicensed (nested_tables records.items) (nesting_of records.items) ≡ None) }
    ensures end { IfErr result (λ e. IsNestEnd lines records.items e) }
{
    let Ok(Parts { plain, nested }) = split(alloc, records) else {
        return Err(NestEnd::Memory);
    };
    match plain_log_of(alloc, bump, plain, lines) {
        Ok(log) => match nest_of(alloc, bump, log, nested) {
            Ok(nest) => Ok(nest),
            Err(end) => Err(end),
        },
        Err(end) => Err(end),
    }
}

/// What the records of a nested log are seen as, or why it is refused. The lines are as many as the input has.
///
/// The sets of its spaces and the fields of its privileges lie in the arena.
pub fn build<'a, P: ArenaRects<'a>>(
    alloc: Global,
    bump: &'a Bump,
    records: Vec<NLined>,
    lines: u32,
) -> Result<Nest<'a, P>, NestEnd>
    requires good { All (λ l. GoodNested l.rec) records.items }
    requires lines { AreNestedLines lines records.items }
    ensures seen { IfOk result (λ n. n ≡ nested_by records.items) }
    ensures faultless { OnOk result (nested_fault lines records.items ≡ None) }
    ensures licensed { OnOk result
        (shown_unlicensed (nested_tables records.items) (nesting_of records.items) ≡ None) }
    ensures tasks { OnOk result (TasksAreLicensed (nested_tables records.items) (nesting_of records.items)) }
    ensures fault { (line : ℕ) (code : Code) → result ≡ Err (NestEnd.Fault line code)
        → nested_fault lines records.items ≡ Some (at_line code line) }
    ensures unlicensed { (u : Unlicensed) → result ≡ Err (NestEnd.Unlicensed u)
        → (nested_fault lines records.items ≡ None)
        × (shown_unlicensed (nested_tables records.items) (nesting_of records.items) ≡ Some u) }
{
    built(alloc, bump, records, lines)
}
