//! An input, and what is kept of the records that it spells.

ghost use Rattle.std.specs.Prelude.{◌≡◌, ◌≤◌, ◌+◌, ◌<◌, ◌^◌, [], All, None, Some, length, IfOk, OnOk};
ghost use Rattle.vocabulary.specs.Prelude.{Good, line_at};
ghost use Rattle.semantics.specs.TextFaults.{lines_fault};
ghost use Rattle.log_reading.specs.Spelled.{EndsBy, HasFault, HasFaultOfLines};
ghost use Rattle.semantics.specs.declared.limits.TheConstants.{MOST_BYTES};
ghost use Rattle.crowded_logs.specs.Crowded.{crowd_count};
ghost use Rattle.log_input.specs.Lines.{AreRead, IsCrowdOf};
ghost use Rattle.log_input.specs.Inputs.{IsInput};

use crate::crowding::Crowding;
use crate::first::{First, first_records, is_few};
use crate::later::later_records;
use crowded_logs::Frame;
use log_reading::{Input, SpellEnd, lines_of};
use spy_grammar::Lined;
use spy_lines::{KeptLines, LineList};
use std::alloc::Global;

/// What is kept of an input whose log is crowded: records that tell its fault, what is noted of its frame, and how many lines it has.
#[derive(Drop)]
pub struct CrowdedInput {
    pub kept: Vec<Lined>,
    pub frame: Frame,
    pub lines: u32,
}

/// An input, read.
#[derive(Drop)]
pub enum LogInput {
    /// All its records.
    Whole(Input<Lined>),
    /// It has more records than a rule can want.
    Crowded(CrowdedInput),
}

/// What is kept, without what was asked and answered.
fn kept_input(crowding: Crowding, lines: u32) -> CrowdedInput
    ensures kept { result.kept.items ≡ crowding.kept.items }
    ensures frame { result.frame ≡ crowding.frame }
    ensures lines { result.lines ≡ lines }
{
    CrowdedInput {
        kept: crowding.kept,
        frame: crowding.frame,
        lines,
    }
}

/// What is kept of a log whose first records make it crowded. The lines after them are left.
fn crowded_input(
    alloc: Global,
    first: First,
    mut lines: KeptLines,
) -> Result<CrowdedInput, SpellEnd>
    requires many { length first.records.items ≡ crowd_count }
    requires good { All (λ l. Good l.rec) first.records.items }
    requires few { first.next + length lines.rest ≤ 2 ^ 26 + 1 }
    requires from { 1 ≤ first.next }
    ensures crowded { IfOk result (IsCrowdOf first.records.items first.next lines.rest) }
    ensures clean { OnOk result (lines_fault first.next lines.rest ≡ None) }
    ensures fault { EndsBy (λ line code. lines_fault first.next lines.rest ≡ Some (record { line = line; code = code })) result }
{
    let mut crowding = Crowding::begin(alloc, first.records)?;
    let next = later_records(alloc, &mut crowding, &mut lines, first.next)?;
    Ok(kept_input(crowding, next - 1))
}

/// What lines say.
fn lines_read(alloc: Global, list: LineList) -> Result<LogInput, SpellEnd>
    ensures read { IfOk result (AreRead list) }
    ensures few { OnOk result (length list ≤ MOST_BYTES) }
    ensures clean { OnOk result (lines_fault 1 list ≡ None) }
    ensures fault { EndsBy (HasFaultOfLines line_at list) result }
{
    let mut lines = list.keeping();
    let first = first_records(alloc, &mut lines)?;
    if is_few(first.records.len()) {
        return Ok(LogInput::Whole(Input {
            records: first.records,
            lines: first.next - 1,
        }));
    }
    let input = crowded_input(alloc, first, lines)?;
    Ok(LogInput::Crowded(input))
}

/// An input of a log, or the first fault of its bytes and lines. Of a log with more records than a rule can want those are kept that tell its fault.
#[tactic(auto, unfolding(semantics::specs::TextFaults::text_fault))]
pub fn log_input(alloc: Global, bytes: Vec<u8>) -> Result<LogInput, SpellEnd>
    ensures input { IfOk result (IsInput bytes.items) }
    ensures fault { EndsBy (HasFault bytes.items) result }
{
    let list = lines_of::<Lined>(bytes)?;
    lines_read(alloc, list)
}
