//! The records of an input.

ghost use Rattle.std.specs.Prelude.{◌≡◌, ◌<◌, ◌≤◌, ◌∷◌, [], ◌++◌, None, IfOk, OnOk, length};
ghost use Rattle.vocabulary.specs.Prelude.{Hold, HoldBy, line_at};
ghost use Rattle.semantics.specs.TextFaults.{code_of, line_fault, lines_fault, lines_fault_by};
ghost use Rattle.semantics.specs.declared.limits.TheConstants.{MOST_BYTES};
ghost use Rattle.log_reading.specs.Spelled.{EndsBy, HasFaultOfLine, HasFaultOfLines, SaysBy, end_at, with_said};
ghost use Rattle.log_reading.specs.declared.reading.SpellEnd.TheVariants.{Memory};

use crate::log_line::LogLine;
use spy_grammar::{Code, LineFault, Lined};
use spy_lines::LineList;
use std::alloc::{AllocError, AllocFailed, Global};

/// Why lines have no records.
#[derive(Clone, Copy, PartialEq, Eq)]
pub enum SpellEnd {
    /// The line of this number, the least, has this fault.
    Fault { line: u32, code: Code },
    /// Memory ran out.
    Memory,
}

impl From<AllocError> for SpellEnd {
    ghost from_gives = { λ _ e. e ≡ Memory };

    fn from(_e: AllocError) -> SpellEnd {
        SpellEnd::Memory
    }
}

impl<T: Drop> From<AllocFailed<T>> for SpellEnd {
    ghost from_gives = { λ _ e. e ≡ Memory };

    fn from(_e: AllocFailed<T>) -> SpellEnd {
        SpellEnd::Memory
    }
}

/// The end that a fault of a line makes.
pub(crate) fn end_of(line: u32, fault: LineFault) -> SpellEnd
    ensures { result ≡ end_at line fault }
{
    let code = match fault {
        LineFault::Word => Code::Word,
        LineFault::Form => Code::Form,
        LineFault::Number => Code::Number,
        LineFault::Order => Code::Order,
        LineFault::Memory => return SpellEnd::Memory,
    };
    SpellEnd::Fault { line, code }
}

/// What one line says, unless it is passed over.
pub fn said_on<L: LogLine>(alloc: Global, line: u32, text: &[u8]) -> Result<Option<L>, SpellEnd>
    ensures said { IfOk result (SaysBy L.good L.spelled L.on line text.now) }
    ensures clean { OnOk result (line_fault line (L.read text.now) ≡ None) }
    ensures fault { EndsBy (HasFaultOfLine L.read line text.now) result }
{
    L::read_on(alloc, line, text)
}

/// Adds what a line says.
fn add_said<L: LogLine>(records: &mut Vec<L>, said: Option<L>) -> Result<(), SpellEnd>
    ensures said { OnOk result (records.new.items ≡ with_said records.old.items said) }
    ensures memory { EndsBy (λ line code. ⊥) result }
{
    if let Some(said) = said {
        records.push(said)?;
    }
    Ok(())
}

/// The records of an input, each with the number of its line, and how many lines it has.
#[derive(Drop)]
pub struct Input<L> {
    pub records: Vec<L>,
    pub lines: u32,
}

/// What lines say, in one pass over them.
pub(crate) fn read_input<L: LogLine>(alloc: Global, list: &LineList) -> Result<Input<L>, SpellEnd>
    ensures held { IfOk result (λ i. HoldBy L.good L.spelled L.on 1 list.now i.records.items) }
    ensures count { IfOk result (λ i. i.lines ≡ length list.now) }
    ensures few { IfOk result (λ i. i.lines ≤ MOST_BYTES) }
    ensures clean { OnOk result (lines_fault_by L.read 1 list.now ≡ None) }
    ensures fault { EndsBy (HasFaultOfLines L.read list.now) result }
{
    let mut records = Vec::new(alloc);
    let mut line = 1;
    for text in list.iter() {
        let said = said_on::<L>(alloc, line, text)?;
        add_said(&mut records, said)?;
        line += 1;
    }
    Ok(Input {
        records,
        lines: line - 1,
    })
}

/// The records of lines, each with the number of its line. A line that is blank or a comment has none.
pub fn read_records(alloc: Global, list: &LineList) -> Result<Vec<Lined>, SpellEnd>
    ensures held { IfOk result (λ log. Hold 1 list.now log.items) }
    ensures clean { OnOk result (lines_fault 1 list.now ≡ None) }
    ensures fault { EndsBy (HasFaultOfLines line_at list.now) result }
{
    let input = read_input::<Lined>(alloc, list)?;
    Ok(input.records)
}
