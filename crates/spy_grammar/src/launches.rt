//! A line of a launch log, read.

ghost use Rattle.std.specs.Prelude.{◌≡◌, ◌⊎◌, true, IfOk, Some, None, Ok, Err};
ghost use Rattle.spy_words.specs.declared.fault.LineFault.TheVariants.{Memory};
ghost use Rattle.spy_words.specs.Faults.{Gives};
ghost use Rattle.spy_grammar.specs.declared.launches.LRecord.{LRecord};
ghost use Rattle.spy_grammar.specs.declared.launches.LaunchKind.TheVariants as kinds;
ghost use Rattle.spy_grammar.specs.Reading.{is_passed_over, read_record};
ghost use Rattle.spy_grammar.specs.Launches.{GoodLaunch, launch_entry, launch_line_at, launch_log, launch_spelling};

use crate::kinds::RecordKind;
use crate::line::{LineKind, any_line};
use crate::record::Record;
use crate::row::RowReader;
use spy_words::{LineFault, Nums, PrivWord};
use std::alloc::{AllocError, Global};

/// One record of a launch log. The words of a line stand in the order of the fields.
#[derive(Drop)]
#[rattlefmt::skip]
pub enum LRecord {
    /// A record of a log.
    Plain(Record),
    /// An index launch: the id of its first task, and its colours. It makes a task for each of
    /// them, in ascending order, whose ids follow one another.
    Launch { base: u32, colours: Nums },
    /// The next requirement of each task of a launch, on the subspace of a partition that has the
    /// task's colour: the launch, tree, partition, fields, privilege, whether it is atomic.
    Lreq { base: u32, tree: u32, part: u32, fields: Nums, access: PrivWord, atomic: bool },
}

/// A record of a launch log and the number of its line, from 1.
#[derive(Drop)]
pub struct LLined {
    pub line: u32,
    pub rec: LRecord,
}

/// The kinds of record of a launch log.
#[derive(Clone, Copy)]
pub enum LaunchKind {
    Plain(RecordKind),
    Launch,
    Lreq,
}

#[tactic(auto, using(crate::proofs::CellLaws::record_told))]
#[rattlefmt::skip]
fn read_launch(row: &mut RowReader<'_>) -> Result<LRecord, AllocError>
    ensures { IfOk result (λ rec. read_record (launch_entry kinds.Launch) row.old ≡ (rec, row.new)) }
{
    Ok(LRecord::Launch { base: row.id(), colours: row.fields()? })
}

#[tactic(auto, using(crate::proofs::CellLaws::record_told))]
#[rattlefmt::skip]
fn read_lreq(row: &mut RowReader<'_>) -> Result<LRecord, AllocError>
    ensures { IfOk result (λ rec. read_record (launch_entry kinds.Lreq) row.old ≡ (rec, row.new)) }
{
    Ok(LRecord::Lreq { base: row.id(), tree: row.id(), part: row.id(), fields: row.fields()?, access: row.access(), atomic: row.coherence() })
}

impl LineKind for LaunchKind {
    type Rec = LRecord;

    ghost grammar = { launch_log };

    #[tactic(auto, using(crate::proofs::lemmas::LaunchLaws::launch_named))]
    fn of_name(word: &[u8]) -> Result<LaunchKind, LineFault> {
        if word == b"launch".as_slice() {
            return Ok(LaunchKind::Launch);
        }
        if word == b"lreq".as_slice() {
            return Ok(LaunchKind::Lreq);
        }
        Ok(LaunchKind::Plain(RecordKind::of_name(word)?))
    }

    fn read(self, row: &mut RowReader<'_>) -> Result<LRecord, AllocError> {
        match self {
            LaunchKind::Plain(kind) => Ok(LRecord::Plain(kind.read(row)?)),
            LaunchKind::Launch => read_launch(row),
            LaunchKind::Lreq => read_lreq(row),
        }
    }
}

/// What a line of a launch log, without its line feed, says: nothing if it is blank or a comment. It is a line of a log, or `launch ID COLOURS` or `lreq ID TREE PART FIELDS PRIV COH`, where COLOURS is spelled as FIELDS are.
#[tactic(auto, unfolding(crate::specs::Launches::launch_line_at), using(crate::proofs::lemmas::LaunchLaws::launch_blank, crate::proofs::lemmas::LaunchLaws::launch_again))]
pub fn read_launch_line(alloc: Global, line: &[u8]) -> Result<Option<LRecord>, LineFault>
    // Of several faults the one that is reported is the one that the definitions report.
    ensures exact { Gives (λ o. o) result (launch_line_at line.now) }
    // A line is passed over where it is empty or begins with `#`, and nowhere else.
    ensures blank { is_passed_over line.now ≡ true → result ≡ Ok None }
    ensures no_more { result ≡ Ok None → is_passed_over line.now ≡ true }
    // A record that is read has this spelling, and its spelling is read as that record, unless memory runs out.
    ensures found { (r : LRecord) → result ≡ Ok (Some r) → (line.now ≡ launch_spelling r) × GoodLaunch r }
    ensures only { (r : LRecord) → GoodLaunch r → line.now ≡ launch_spelling r → (result ≡ Ok (Some r))
        ⊎ (result ≡ Err Memory) }
{
    any_line::<LaunchKind>(alloc, line)
}
