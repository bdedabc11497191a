//! The walk over the records of a launch log, up to the first that breaks a rule on launches by itself.

ghost use Rattle.std.specs.Prelude.{◌≡◌, ◌++◌, ◌-◌, ◌≤◌, All, length, map, replicate, IfOk, OnOk};
ghost use Rattle.std.specs.List.Sorted.{IsStrictlyIncreasing};
ghost use Rattle.vocabulary.specs.Prelude.{GoodLaunch};
ghost use Rattle.launches.specs.Steps.{HasTaskIds, expanded_as};
ghost use Rattle.launches.specs.Walks.{HasWalked};

use crate::launched::Launched;
use crate::rules::advance;
use crate::writing::Writing;
use log_tables::{ById, Rows};
use memory::Memory;
use semantics::Fault;
use spy_grammar::LLined;
use std::alloc::Global;

/// The lines of the records that launch and write, for each launch and for each written record.
#[derive(Drop)]
pub(crate) struct Lines {
    pub(crate) launched: Vec<u32>,
    pub(crate) written: Vec<u32>,
}

/// What is launched and written by the records up to the first that breaks a rule by itself, and the fault of that one.
#[derive(Drop)]
pub(crate) struct Walked {
    pub(crate) launches: Rows<ById, Launched>,
    pub(crate) writing: Writing,
    pub(crate) lines: Lines,
    pub(crate) fault: Option<Fault>,
}

/// Notes the line of each new one of so many.
fn note(lines: &mut Vec<u32>, line: u32, count: usize) -> Result<(), Memory>
    requires { length lines.old.items ≤ count }
    ensures { OnOk result (lines.new.items ≡ lines.old.items ++ replicate (count - length lines.old.items) line) }
{
    lines.resize(count, line)?;
    Ok(())
}

/// Writes what the records of a launch log write, up to the first that breaks a rule on launches by itself, and tells the fault of that one.
pub(crate) fn walk(alloc: Global, records: Vec<LLined>) -> Result<Walked, Memory>
    requires good { All (λ l. GoodLaunch l.rec) records.items }
    requires lines { IsStrictlyIncreasing (map (λ l. l.line) records.items) }
    ensures walked { IfOk result (λ w. HasWalked records.items (expanded_as w.launches w.writing)
        w.lines.launched.items w.lines.written.items w.fault) }
    ensures fit { IfOk result (λ w. All HasTaskIds w.launches) }
{
    let mut launches = Rows::new(alloc);
    let mut writing = Writing::new(alloc);
    let mut launched = Vec::new(alloc);
    let mut written = Vec::new(alloc);
    let mut fault = None;
    for l in records {
        let line = l.line;
        if let Some(code) = advance(&mut launches, &mut writing, alloc, l.rec)? {
            fault = Some(Fault { line, code });
            break;
        }
        note(&mut launched, line, launches.len())?;
        note(&mut written, line, writing.len())?;
    }
    Ok(Walked {
        launches,
        writing,
        lines: Lines { launched, written },
        fault,
    })
}
