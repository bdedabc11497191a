//! A line of a nested log, read.

ghost use Rattle.std.specs.Prelude.{◌≡◌, ◌⊎◌, true, IfOk, Some, None, Ok, Err};
ghost use Rattle.spy_words.specs.declared.fault.LineFault.TheVariants.{Memory};
ghost use Rattle.spy_words.specs.Faults.{Gives};
ghost use Rattle.spy_grammar.specs.declared.nested.NRecord.{NRecord};
ghost use Rattle.spy_grammar.specs.declared.nested.NestedKind.TheVariants as kinds;
ghost use Rattle.spy_grammar.specs.Reading.{is_passed_over, read_record};
ghost use Rattle.spy_grammar.specs.Nested.{GoodNested, nested_entry, nested_line_at, nested_log, nested_spelling};

use crate::kinds::RecordKind;
use crate::line::{LineKind, any_line};
use crate::record::Record;
use crate::row::RowReader;
use spy_words::{LineFault, Nums, PrivWord};
use std::alloc::{AllocError, Global};

/// One record of a nested log. The words of a line stand in the order of the fields.
#[derive(Drop)]
#[rattlefmt::skip]
pub enum NRecord {
    /// A record of a log.
    Plain(Record),
    /// A group, a task that runs nothing itself and has privileges: its id, and the group that it
    /// is a child of, or 0 for none.
    Group { id: u32, parent: u32 },
    /// The next privilege of a group: the group, tree, space, fields, privilege.
    Greq { group: u32, tree: u32, space: u32, fields: Nums, access: PrivWord },
    /// A task is a child of a group.
    Member { task: u32, group: u32 },
}

/// A record of a nested log and the number of its line, from 1.
#[derive(Drop)]
pub struct NLined {
    pub line: u32,
    pub rec: NRecord,
}

/// The kinds of record of a nested log.
#[derive(Clone, Copy)]
pub enum NestedKind {
    Plain(RecordKind),
    Group,
    Greq,
    Member,
}

#[tactic(auto, using(crate::proofs::CellLaws::record_told))]
#[rattlefmt::skip]
fn read_greq(row: &mut RowReader<'_>) -> Result<NRecord, AllocError>
    ensures { IfOk result (λ rec. read_record (nested_entry kinds.Greq) row.old ≡ (rec, row.new)) }
{
    Ok(NRecord::Greq { group: row.number(), tree: row.id(), space: row.id(), fields: row.fields()?, access: row.access() })
}

impl LineKind for NestedKind {
    type Rec = NRecord;

    ghost grammar = { nested_log };

    #[tactic(auto, using(crate::proofs::lemmas::NestedLaws::nested_named))]
    fn of_name(word: &[u8]) -> Result<NestedKind, LineFault> {
        if word == b"group".as_slice() {
            return Ok(NestedKind::Group);
        }
        if word == b"greq".as_slice() {
            return Ok(NestedKind::Greq);
        }
        if word == b"member".as_slice() {
            return Ok(NestedKind::Member);
        }
        Ok(NestedKind::Plain(RecordKind::of_name(word)?))
    }

    #[tactic(auto, using(crate::proofs::CellLaws::record_told))]
    #[rattlefmt::skip]
    fn read(self, row: &mut RowReader<'_>) -> Result<NRecord, AllocError> {
        match self {
            NestedKind::Plain(kind) => Ok(NRecord::Plain(kind.read(row)?)),
            NestedKind::Group => Ok(NRecord::Group { id: row.id(), parent: row.number() }),
            NestedKind::Greq => read_greq(row),
            NestedKind::Member => Ok(NRecord::Member { task: row.id(), group: row.number() }),
        }
    }
}

/// What a line of a nested log, without its line feed, says: nothing if it is blank or a comment. It is a line of a log, or `group ID NUM`, `greq NUM ID ID FIELDS PRIV` or `member ID NUM`.
#[tactic(auto, unfolding(crate::specs::Nested::nested_line_at), using(crate::proofs::lemmas::NestedLaws::nested_blank, crate::proofs::lemmas::NestedLaws::nested_again))]
pub fn read_nested_line(alloc: Global, line: &[u8]) -> Result<Option<NRecord>, LineFault>
    // Of several faults the one that is reported is the one that the definitions report.
    ensures exact { Gives (λ o. o) result (nested_line_at line.now) }
    // A line is passed over where it is empty or begins with `#`, and nowhere else.
    ensures blank { is_passed_over line.now ≡ true → result ≡ Ok None }
    ensures no_more { result ≡ Ok None → is_passed_over line.now ≡ true }
    // A record that is read has this spelling, and its spelling is read as that record, unless memory runs out.
    ensures found { (r : NRecord) → result ≡ Ok (Some r) → (line.now ≡ nested_spelling r) × GoodNested r }
    ensures only { (r : NRecord) → GoodNested r → line.now ≡ nested_spelling r → (result ≡ Ok (Some r))
        ⊎ (result ≡ Err Memory) }
{
    any_line::<NestedKind>(alloc, line)
}
