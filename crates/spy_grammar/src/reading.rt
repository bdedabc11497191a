//! A line, read.

ghost use Rattle.std.specs.Prelude.{◌≡◌, ◌⊎◌, true, IfOk, Some, None, Ok, Err};
ghost use Rattle.spy_words.specs.declared.fault.LineFault.TheVariants.{Memory};
ghost use Rattle.spy_words.specs.Faults.{Gives};
ghost use Rattle.spy_grammar.specs.declared.record.Record.{Record};
ghost use Rattle.spy_grammar.specs.declared.kinds.RecordKind.TheVariants as kinds;
ghost use Rattle.spy_grammar.specs.Rows.{entry, plain_log};
ghost use Rattle.spy_grammar.specs.Reading.{is_passed_over, line_at, read_record};
ghost use Rattle.spy_grammar.specs.Spelling.{spelling, Good};

use crate::kinds::{RecordKind, kind_of};
use crate::line::{LineKind, any_line};
use crate::record::Record;
use crate::row::RowReader;
use spy_words::{Extent, LineFault};
use std::alloc::{AllocError, Global};

#[tactic(auto, using(crate::proofs::CellLaws::record_told))]
#[rattlefmt::skip]
fn read_ispace(row: &mut RowReader<'_>) -> Result<Record, AllocError>
    ensures { IfOk result (λ rec. read_record (entry kinds.Ispace) row.old ≡ (rec, row.new)) }
{
    let id = row.id();
    Ok(match row.extent()? {
        Extent::Runs(set) => Record::Ispace { id, set },
        Extent::Plane(rects) => Record::Plane { id, rects },
    })
}

#[tactic(auto, using(crate::proofs::CellLaws::record_told))]
#[rattlefmt::skip]
fn read_fields(row: &mut RowReader<'_>) -> Result<Record, AllocError>
    ensures { IfOk result (λ rec. read_record (entry kinds.Fields) row.old ≡ (rec, row.new)) }
{
    Ok(Record::Fields { id: row.id(), fields: row.fields()? })
}

#[tactic(auto, using(crate::proofs::CellLaws::record_told))]
#[rattlefmt::skip]
fn read_req(row: &mut RowReader<'_>) -> Result<Record, AllocError>
    ensures { IfOk result (λ rec. read_record (entry kinds.Req) row.old ≡ (rec, row.new)) }
{
    Ok(Record::Req { task: row.id(), tree: row.id(), space: row.id(), fields: row.fields()?, access: row.access(), atomic: row.coherence() })
}

#[tactic(auto, using(crate::proofs::CellLaws::record_told))]
#[rattlefmt::skip]
fn read_fill(row: &mut RowReader<'_>) -> Result<Record, AllocError>
    ensures { IfOk result (λ rec. read_record (entry kinds.Fill) row.old ≡ (rec, row.new)) }
{
    Ok(Record::Fill { id: row.id(), tree: row.id(), space: row.id(), fields: row.fields()?, n: row.number() })
}

#[tactic(auto, using(crate::proofs::CellLaws::record_told))]
#[rattlefmt::skip]
fn read_serial(row: &mut RowReader<'_>) -> Result<Record, AllocError>
    ensures { IfOk result (λ rec. read_record (entry kinds.Serial) row.old ≡ (rec, row.new)) }
{
    Ok(Record::Serial { items: row.ids()? })
}

#[tactic(auto, using(crate::proofs::CellLaws::record_told))]
#[rattlefmt::skip]
fn read_inst(row: &mut RowReader<'_>) -> Result<Record, AllocError>
    ensures { IfOk result (λ rec. read_record (entry kinds.Inst) row.old ≡ (rec, row.new)) }
{
    Ok(Record::Inst { id: row.id(), tree: row.id(), space: row.id(), fields: row.fields()?, kind: row.layout() })
}

#[tactic(auto, using(crate::proofs::CellLaws::record_told))]
#[rattlefmt::skip]
fn read_map(row: &mut RowReader<'_>) -> Result<Record, AllocError>
    ensures { IfOk result (λ rec. read_record (entry kinds.Map) row.old ≡ (rec, row.new)) }
{
    Ok(Record::Map { task: row.id(), req: row.id(), fields: row.fields()?, inst: row.id() })
}

#[tactic(auto, using(crate::proofs::CellLaws::record_told))]
#[rattlefmt::skip]
fn read_run(row: &mut RowReader<'_>) -> Result<Record, AllocError>
    ensures { IfOk result (λ rec. read_record (entry kinds.Run) row.old ≡ (rec, row.new)) }
{
    Ok(Record::Run { task: row.id(), done: row.id(), waits: row.waits()? })
}

#[tactic(auto, using(crate::proofs::CellLaws::record_told))]
#[rattlefmt::skip]
fn read_copy(row: &mut RowReader<'_>) -> Result<Record, AllocError>
    ensures { IfOk result (λ rec. read_record (entry kinds.Copy) row.old ≡ (rec, row.new)) }
{
    Ok(Record::Copy { src: row.id(), dst: row.id(), space: row.id(), fields: row.fields()?, done: row.id(), waits: row.waits()? })
}

#[tactic(auto, using(crate::proofs::CellLaws::record_told))]
#[rattlefmt::skip]
fn read_put(row: &mut RowReader<'_>) -> Result<Record, AllocError>
    ensures { IfOk result (λ rec. read_record (entry kinds.Put) row.old ≡ (rec, row.new)) }
{
    Ok(Record::Put { inst: row.id(), space: row.id(), fields: row.fields()?, n: row.number(), done: row.id(), waits: row.waits()? })
}

#[tactic(auto, using(crate::proofs::CellLaws::record_told))]
#[rattlefmt::skip]
fn read_reset(row: &mut RowReader<'_>) -> Result<Record, AllocError>
    ensures { IfOk result (λ rec. read_record (entry kinds.Reset) row.old ≡ (rec, row.new)) }
{
    Ok(Record::Reset { inst: row.id(), space: row.id(), fields: row.fields()?, done: row.id(), waits: row.waits()? })
}

#[tactic(auto, using(crate::proofs::CellLaws::record_told))]
#[rattlefmt::skip]
fn read_fold(row: &mut RowReader<'_>) -> Result<Record, AllocError>
    ensures { IfOk result (λ rec. read_record (entry kinds.Fold) row.old ≡ (rec, row.new)) }
{
    Ok(Record::Fold { src: row.id(), dst: row.id(), space: row.id(), fields: row.fields()?, done: row.id(), waits: row.waits()? })
}

#[tactic(auto, using(crate::proofs::CellLaws::record_told))]
#[rattlefmt::skip]
fn read_merge(row: &mut RowReader<'_>) -> Result<Record, AllocError>
    ensures { IfOk result (λ rec. read_record (entry kinds.Merge) row.old ≡ (rec, row.new)) }
{
    Ok(Record::Merge { done: row.id(), waits: row.waits()? })
}

impl LineKind for RecordKind {
    type Rec = Record;

    ghost grammar = { plain_log };

    fn of_name(word: &[u8]) -> Result<RecordKind, LineFault> {
        kind_of(word)
    }

    /// The format's table.
    #[tactic(auto, using(crate::proofs::CellLaws::record_told))]
    #[rattlefmt::skip]
    fn read(self, row: &mut RowReader<'_>) -> Result<Record, AllocError> {
        match self {
            RecordKind::Header => Ok(Record::Header { version: row.number() }),
            RecordKind::Ispace => read_ispace(row),
            RecordKind::Part => Ok(Record::Part { id: row.id(), space: row.id(), disjoint: row.split() }),
            RecordKind::Sub => Ok(Record::Sub { part: row.id(), colour: row.number(), space: row.id() }),
            RecordKind::Fields => read_fields(row),
            RecordKind::Tree => Ok(Record::Tree { id: row.id(), space: row.id(), fspace: row.id() }),
            RecordKind::Redop => Ok(Record::Redop { id: row.id() }),
            RecordKind::Task => Ok(Record::Task { id: row.id() }),
            RecordKind::Req => read_req(row),
            RecordKind::Fill => read_fill(row),
            RecordKind::Serial => read_serial(row),
            RecordKind::Inst => read_inst(row),
            RecordKind::Map => read_map(row),
            RecordKind::Run => read_run(row),
            RecordKind::Copy => read_copy(row),
            RecordKind::Put => read_put(row),
            RecordKind::Reset => read_reset(row),
            RecordKind::Fold => read_fold(row),
            RecordKind::Merge => read_merge(row),
            RecordKind::End => Ok(Record::End { n: row.number() }),
        }
    }
}

/// What a line, without its line feed, says: nothing if it is blank or a comment.
#[tactic(auto, unfolding(crate::specs::Reading::line_at), using(crate::proofs::lemmas::RowLaws::line_blank, crate::proofs::lemmas::RowLaws::line_spelled, crate::proofs::lemmas::RowLaws::line_good, crate::proofs::lemmas::RowLaws::line_again))]
pub fn read_line(alloc: Global, line: &[u8]) -> Result<Option<Record>, LineFault>
    // Of several faults the one that is reported is the one that the definitions report.
    ensures exact { Gives (λ o. o) result (line_at line.now) }
    // A line is passed over where it is empty or begins with `#`, and nowhere else.
    ensures blank { is_passed_over line.now ≡ true → result ≡ Ok None }
    ensures no_more { result ≡ Ok None → is_passed_over line.now ≡ true }
    // A record that is read has this spelling, and its spelling is read as that record, unless memory runs out.
    ensures found { (r : Record) → result ≡ Ok (Some r) → (line.now ≡ spelling r) × Good r }
    ensures only { (r : Record) → Good r → line.now ≡ spelling r → (result ≡ Ok (Some r))
        ⊎ (result ≡ Err Memory) }
{
    any_line::<RecordKind>(alloc, line)
}
