//! The first records of an input.

ghost use Rattle.std.specs.Prelude.{◌≡◌, ◌+◌, ◌<◌, ◌≤◌, ◌^◌, [], All, None, length, nat_lt, slice_get, IfOk, OnOk, if◌then◌else◌};
ghost use Rattle.std.specs.Option.{option_map};
ghost use Rattle.vocabulary.specs.Prelude.{Good, line_at};
ghost use Rattle.semantics.specs.TextFaults.{lines_fault};
ghost use Rattle.crowded_logs.specs.Crowded.{crowd_count};
ghost use Rattle.log_reading.specs.Spelled.{EndsBy, HasFaultOfLines, with_said};
ghost use Rattle.log_input.specs.Lines.{Lead};

use log_reading::{SpellEnd, said_on};
use semantics::MOST_RECORDS;
use spy_grammar::Lined;
use spy_lines::KeptLines;
use std::alloc::Global;

/// The first records of an input, and the number of the line after them.
#[derive(Drop)]
pub(crate) struct First {
    pub(crate) records: Vec<Lined>,
    pub(crate) next: u32,
}

/// Whether so few records make no log crowded.
pub(crate) fn is_few(count: usize) -> bool
    ensures { result ≡ nat_lt count crowd_count }
{
    count < MOST_RECORDS + 3
}

/// The next line, if so few records are read that one more is wanted.
fn wanted_line(lines: &KeptLines, count: usize) -> Option<&[u8]>
    ensures { option_map (λ line. line.now) result
        ≡ (if nat_lt count crowd_count then slice_get lines.now.rest 0 else None) }
{
    if is_few(count) { lines.line() } else { None }
}

/// Adds what a line says.
fn add_said(records: &mut Vec<Lined>, said: Option<Lined>) -> Result<(), SpellEnd>
    ensures said { OnOk result (records.new.items ≡ with_said records.old.items said) }
    ensures memory { EndsBy (λ line code. ⊥) result }
{
    if let Some(said) = said {
        records.push(said)?;
    }
    Ok(())
}

/// Reads lines until so many records are there that the log is crowded, or no line is left.
pub(crate) fn first_records(alloc: Global, lines: &mut KeptLines) -> Result<First, SpellEnd>
    requires { length lines.old.rest ≤ 2 ^ 26 }
    ensures lead { IfOk result (λ first. Lead 1 lines.old.rest first.records.items first.next lines.new.rest) }
    ensures clean { IfOk result (λ first. lines_fault 1 lines.old.rest ≡ lines_fault first.next lines.new.rest) }
    ensures count { IfOk result (λ first. first.next + length lines.new.rest ≡ length lines.old.rest + 1) }
    ensures before { IfOk result (λ first. length first.records.items < first.next) }
    ensures whole { IfOk result (λ first. length first.records.items < crowd_count → lines.new.rest ≡ []) }
    ensures few { IfOk result (λ first. length first.records.items ≤ crowd_count) }
    ensures good { IfOk result (λ first. All (λ l. Good l.rec) first.records.items) }
    ensures fault { EndsBy (HasFaultOfLines line_at lines.old.rest) result }
{
    let mut records = Vec::new(alloc);
    let mut next = 1;
    while let Some(text) = wanted_line(lines, records.len()) {
        let said = said_on::<Lined>(alloc, next, text)?;
        add_said(&mut records, said)?;
        lines.pass();
        next += 1;
    }
    Ok(First { records, next })
}
