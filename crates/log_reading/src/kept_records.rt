//! The text of the records of an input, out of the input's own bytes.

ghost use Rattle.std.specs.Prelude.{◌≡◌, ◌++◌, if◌then◌else◌, drop, take, IfOk, None, OnOk};
ghost use Rattle.std.specs.Option.{is_some};
ghost use Rattle.spy_lines.specs.LinesOf.{with_ends};
ghost use Rattle.vocabulary.specs.Prelude.{line_at};
ghost use Rattle.semantics.specs.TextFaults.{lines_fault};
ghost use Rattle.log_reading.specs.Spelled.{EndsBy, HasFault, HasFaultOfLines, HoldText, SpellsText};

use crate::input::lines_of;
use crate::reading::{SpellEnd, said_on};
use spy_grammar::Lined;
use spy_lines::{KeptLines, LineList};
use std::alloc::Global;

/// Keeps the next line if it says a record, which is let go, and else passes over the line.
fn keep_said(lines: &mut KeptLines, said: Option<Lined>)
    ensures kept { lines.new.kept ≡ (if is_some said
        then lines.old.kept ++ with_ends (take 1 lines.old.rest) else lines.old.kept) }
    ensures rest { lines.new.rest ≡ drop 1 lines.old.rest }
{
    match said {
        Some(_) => lines.keep(),
        None => lines.pass(),
    }
}

/// The lines that say records, one after the other. Each line is looked at once.
fn kept_lines(alloc: Global, list: LineList) -> Result<Vec<u8>, SpellEnd>
    ensures text { IfOk result (λ text. HoldText 1 list text.items) }
    ensures clean { OnOk result (lines_fault 1 list ≡ None) }
    ensures fault { EndsBy (HasFaultOfLines line_at list) result }
{
    let mut lines = list.keeping();
    let mut line = 1;
    while let Some(text) = lines.line() {
        let said = said_on::<Lined>(alloc, line, text)?;
        keep_said(&mut lines, said);
        line += 1;
    }
    Ok(lines.finish())
}

/// The text of the records of an input, or the first fault of its bytes and lines.
///
/// A line that says a record is the record's spelling, so the text is those lines as they stand: no record
/// is kept, and none is written anew.
#[tactic(auto, unfolding(semantics::specs::TextFaults::text_fault))]
pub fn kept_text(alloc: Global, bytes: Vec<u8>) -> Result<Vec<u8>, SpellEnd>
    ensures text { IfOk result (λ text. SpellsText bytes.items text.items) }
    ensures fault { EndsBy (HasFault bytes.items) result }
{
    let list = lines_of::<Lined>(bytes)?;
    kept_lines(alloc, list)
}
