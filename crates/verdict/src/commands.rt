//! What each command finds in the records of a log.

ghost use Rattle.std.specs.Prelude.{◌≡◌, All, IfOk};
ghost use Rattle.findings.specs.Texts as texts;
ghost use Rattle.vocabulary.specs.Prelude.{Good, AreLines, tables_of};
ghost use Rattle.semantics.specs.declared.command.Command.TheVariants.{Check, Deps, Ordered, Spare, Why};
ghost use Rattle.outcomes.specs.Outcome.{IsFound};
ghost use Rattle.long_values.specs.LongOutcome.{IsFoundLong};
ghost use Rattle.log_findings.specs.Findings.{IsFoundOf};

use crate::asking::why_in;
use crate::checking::check_in;
use crate::narrow::Source;
use bumpalo::Bump;
use findings::Finding;
use log_decl::{DeclEnd, declare};
use log_findings::{deps_finding, fault_found, ordered_finding, spare_finding};
use logs::Log;
use memory::Memory;
use point_set::RectSet;
use region_tree::ArenaRects;
use semantics::{Ask, Command};
use spy_grammar::Lined;
use std::alloc::Global;

/// What a command finds in a log that was made of these records: a row for each command. A log that is only looked at is let go then.
fn found_in<'a, P: ArenaRects<'a>>(
    alloc: Global,
    command: Command,
    log: Log<'a, P>,
    source: &Source<'a, '_>,
) -> Result<Finding, Memory>
    requires good { All (λ l. Good l.rec) source.now.records.now.items }
    requires lines { AreLines source.now.lines source.now.records.now.items }
    requires tables { log ≡ tables_of source.now.records.now.items }
    ensures found { IfOk result (IsFoundOf command log.entry) }
    ensures text { IfOk result texts.Good }
{
    match command {
        Command::Check => check_in(alloc, log, source),
        Command::Ordered => {
            let found = ordered_finding(alloc, &log);
            log.let_go();
            found
        }
        Command::Deps => {
            let found = deps_finding(alloc, &log);
            log.let_go();
            found
        }
        Command::Spare => {
            let found = spare_finding(alloc, &log);
            log.let_go();
            found
        }
        Command::Why(ask) => why_in(alloc, log, &ask),
    }
}

/// What a command finds in the records of a log, which has so many lines: the fault that is shown, or what there is to find in a log without one.
pub fn find(
    alloc: Global,
    command: Command,
    records: &Vec<Lined>,
    lines: u32,
) -> Result<Finding, Memory>
    requires good { All (λ l. Good l.rec) records.now.items }
    requires lines { AreLines lines records.now.items }
    ensures found { IfOk result (IsFound command lines records.now.items) }
    ensures text { IfOk result texts.Good }
{
    let bump = Bump::new(alloc);
    match declare::<RectSet<'_>>(alloc, &bump, records, lines) {
        Ok(log) => {
            let source = Source {
                bump: &bump,
                records,
                lines,
            };
            found_in(alloc, command, log, &source)
        }
        Err(DeclEnd::Fault { line, code }) => Ok(fault_found(line, code)),
        Err(DeclEnd::Memory) => Err(Memory),
    }
}

/// What `check` finds: the fault that is shown, a cycle, a race, a read that differs in every interleaving, or how much was judged and found right in every interleaving. By long values, which carry what was read, it is the same.
pub fn check(alloc: Global, records: &Vec<Lined>, lines: u32) -> Result<Finding, Memory>
    requires good { All (λ l. Good l.rec) records.now.items }
    requires lines { AreLines lines records.now.items }
    ensures found { IfOk result (IsFound Check lines records.now.items) }
    ensures long { IfOk result (IsFoundLong lines records.now.items) }
    ensures text { IfOk result texts.Good }
{
    find(alloc, Command::Check, records, lines)
}

/// What `ordered` finds: the fault that is shown, a cycle, the first two tasks that interfere and are not run in serial order, or how many tasks and pairs there are.
pub fn ordered(alloc: Global, records: &Vec<Lined>, lines: u32) -> Result<Finding, Memory>
    requires good { All (λ l. Good l.rec) records.now.items }
    requires lines { AreLines lines records.now.items }
    ensures found { IfOk result (IsFound Ordered lines records.now.items) }
    ensures text { IfOk result texts.Good }
{
    find(alloc, Command::Ordered, records, lines)
}

/// What `deps` finds: the fault that is shown, or the pairs of items that interfere.
pub fn deps(alloc: Global, records: &Vec<Lined>, lines: u32) -> Result<Finding, Memory>
    requires good { All (λ l. Good l.rec) records.now.items }
    requires lines { AreLines lines records.now.items }
    ensures found { IfOk result (IsFound Deps lines records.now.items) }
    ensures text { IfOk result texts.Good }
{
    find(alloc, Command::Deps, records, lines)
}

/// What `spare` finds: the fault that is shown, a cycle, or the listed waits that others imply.
pub fn spare(alloc: Global, records: &Vec<Lined>, lines: u32) -> Result<Finding, Memory>
    requires good { All (λ l. Good l.rec) records.now.items }
    requires lines { AreLines lines records.now.items }
    ensures found { IfOk result (IsFound Spare lines records.now.items) }
    ensures text { IfOk result texts.Good }
{
    find(alloc, Command::Spare, records, lines)
}

/// What `why` finds: the fault that is shown, a cycle, a race, the links from a read back to where its value came from, or that the log has no such read. What the links say is so in every interleaving.
pub fn why(alloc: Global, records: &Vec<Lined>, lines: u32, ask: &Ask) -> Result<Finding, Memory>
    requires good { All (λ l. Good l.rec) records.now.items }
    requires lines { AreLines lines records.now.items }
    ensures found { IfOk result (IsFound (Why ask.now) lines records.now.items) }
    ensures text { IfOk result texts.Good }
{
    find(alloc, Command::Why(*ask), records, lines)
}
