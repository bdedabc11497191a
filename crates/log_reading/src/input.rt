//! An input, and the records that it spells.

ghost use Rattle.std.specs.Prelude.{◌≡◌, ◌≤◌, ◌∷◌, All, length, IfOk, None, Some, OnOk};
ghost use Rattle.spy_lines.specs.LinesOf.{with_ends, IsLine};
ghost use Rattle.vocabulary.specs.Prelude.{Good, GoodLaunch, HoldBy, AreLines, AreLinesBy};
ghost use Rattle.spy_grammar.specs.Nested.{GoodNested};
ghost use Rattle.semantics.specs.Launches.{AreLaunchLines};
ghost use Rattle.semantics.specs.Nesting.{AreNestedLines};
ghost use Rattle.semantics.specs.TextFaults.{lines_fault_by, text_fault_by};
ghost use Rattle.semantics.specs.declared.limits.TheConstants.{MOST_BYTES};
ghost use Rattle.log_reading.specs.Spelled.{EndsBy, HasFault, HasLaunchFault, HasNestedFault, HasFaultOfLines, Spells, SpellsBy, SpellsLaunch, SpellsNested};

use crate::log_line::LogLine;
use crate::reading::{Input, SpellEnd, read_input};
use semantics::MOST_BYTES;
use spy_grammar::{Code, LLined, Lined, NLined};
use spy_lines::{LineList, Lines};
use std::alloc::Global;

/// The lines of an input, over its bytes, or the fault of an input that is too long or ends within a line.
pub fn lines_of<L: LogLine>(bytes: Vec<u8>) -> Result<LineList, SpellEnd>
    ensures bytes { IfOk result (λ lines. with_ends lines ≡ bytes.items) }
    ensures lines { IfOk result (λ lines. All IsLine lines) }
    ensures short { OnOk result (length bytes.items ≤ MOST_BYTES) }
    ensures fault { EndsBy (λ line code. text_fault_by L.read bytes.items ≡ Some (record { line = line; code = code })) result }
{
    if bytes.len() as u64 > MOST_BYTES {
        return Err(SpellEnd::Fault {
            line: 0,
            code: Code::TooLong,
        });
    }
    match Lines::of(bytes).finish() {
        Ok(list) => Ok(list),
        Err(end) => Err(SpellEnd::Fault {
            line: end.line,
            code: Code::Newline,
        }),
    }
}

/// The records of lines, which are not kept.
fn records_of<L: LogLine>(alloc: Global, list: LineList) -> Result<Input<L>, SpellEnd>
    ensures held { IfOk result (λ i. HoldBy L.good L.spelled L.on 1 list i.records.items) }
    ensures clean { OnOk result (lines_fault_by L.read 1 list ≡ None) }
    ensures count { IfOk result (λ i. i.lines ≡ length list) }
    ensures good { IfOk result (λ i. All (λ l. L.good (L.rec_of l)) i.records.items) }
    ensures lines { IfOk result (λ i. AreLinesBy L.line_of i.lines i.records.items) }
    ensures fault { EndsBy (HasFaultOfLines L.read list) result }
{
    let input = read_input::<L>(alloc, &list)?;
    Ok(input)
}

/// The records of an input of a log of some kind, or the first fault of its bytes and lines.
fn any_input_in<L: LogLine>(alloc: Global, bytes: Vec<u8>) -> Result<Input<L>, SpellEnd>
    ensures spelled { IfOk result (λ i. SpellsBy (text_fault_by L.read) L.good L.spelled L.on bytes.items i.lines i.records.items) }
    ensures good { IfOk result (λ i. All (λ l. L.good (L.rec_of l)) i.records.items) }
    ensures lines { IfOk result (λ i. AreLinesBy L.line_of i.lines i.records.items) }
    ensures fault { EndsBy (λ line code. text_fault_by L.read bytes.items ≡ Some (record { line = line; code = code })) result }
{
    let list = lines_of::<L>(bytes)?;
    records_of::<L>(alloc, list)
}

/// The records of an input, or the first fault of its bytes and lines.
#[tactic(auto, unfolding(semantics::specs::TextFaults::text_fault))]
pub fn input_in(alloc: Global, bytes: Vec<u8>) -> Result<Input<Lined>, SpellEnd>
    ensures spelled { IfOk result (λ i. Spells bytes.items i.lines i.records.items) }
    ensures good { IfOk result (λ i. All (λ l. Good l.rec) i.records.items) }
    ensures lines { IfOk result (λ i. AreLines i.lines i.records.items) }
    ensures fault { EndsBy (HasFault bytes.items) result }
{
    any_input_in::<Lined>(alloc, bytes)
}

/// The records of an input of a launch log, or the first fault of its bytes and lines.
#[tactic(auto, unfolding(semantics::specs::Launches::launch_text_fault))]
pub fn launch_input_in(alloc: Global, bytes: Vec<u8>) -> Result<Input<LLined>, SpellEnd>
    ensures spelled { IfOk result (λ i. SpellsLaunch bytes.items i.lines i.records.items) }
    ensures good { IfOk result (λ i. All (λ l. GoodLaunch l.rec) i.records.items) }
    ensures lines { IfOk result (λ i. AreLaunchLines i.lines i.records.items) }
    ensures fault { EndsBy (HasLaunchFault bytes.items) result }
{
    any_input_in::<LLined>(alloc, bytes)
}

/// The records of an input of a nested log, or the first fault of its bytes and lines.
#[tactic(auto, unfolding(semantics::specs::Nesting::nested_text_fault))]
pub fn nested_input_in(alloc: Global, bytes: Vec<u8>) -> Result<Input<NLined>, SpellEnd>
    ensures spelled { IfOk result (λ i. SpellsNested bytes.items i.lines i.records.items) }
    ensures good { IfOk result (λ i. All (λ l. GoodNested l.rec) i.records.items) }
    ensures lines { IfOk result (λ i. AreNestedLines i.lines i.records.items) }
    ensures fault { EndsBy (HasNestedFault bytes.items) result }
{
    any_input_in::<NLined>(alloc, bytes)
}
