//! A line, read by any of the grammars.

ghost use Rattle.std.specs.Prelude.{◌≡◌, true, IfOk, None, Ok, Some};
ghost use Rattle.spy_words.specs.Faults.{Gives, map_ok};
ghost use Rattle.spy_grammar.specs.Rows.{Grammar, kind_in};
ghost use Rattle.spy_grammar.specs.Reading.{is_passed_over, line_in, read_record, record_in};

use crate::row::RowReader;
use spy_words::{LineFault, Pieces};
use std::alloc::{AllocError, Global};

/// A kind of record of a grammar.
pub trait LineKind: Copy + Drop {
    /// What a line of the grammar says.
    type Rec: Drop;

    /// The grammar.
    ghost grammar: { Grammar Self Self.Rec };

    /// The kind with this first word.
    fn of_name(word: &[u8]) -> Result<Self, LineFault>
        ensures { result ≡ kind_in grammar word.now };

    /// The record of the kind, from the words after the first.
    fn read(self, row: &mut RowReader<'_>) -> Result<Self::Rec, AllocError>
        ensures { IfOk result (λ rec. read_record (grammar.entry self) row.old ≡ (rec, row.new)) };
}

/// The record that words say.
#[tactic(auto, unfolding(crate::specs::Reading::record_in), using(crate::proofs::Given::ended_gives, crate::proofs::Given::fails_so))]
fn record_of<K: LineKind>(alloc: Global, words: Pieces<'_>) -> Result<Option<K::Rec>, LineFault>
    ensures { Gives (λ o. o) result (map_ok (λ r. Some r) (record_in K.grammar words.entry)) }
{
    let mut row = RowReader::new(alloc, words);
    match K::of_name(row.next()) {
        Ok(kind) => {
            let rec = kind.read(&mut row)?;
            row.end(Some(rec))
        }
        Err(fault) => Err(fault),
    }
}

/// What a line says: nothing if it is blank or a comment.
#[tactic(auto, unfolding(crate::specs::Reading::line_in))]
pub fn any_line<K: LineKind>(alloc: Global, line: &[u8]) -> Result<Option<K::Rec>, LineFault>
    ensures exact { Gives (λ o. o) result (line_in K.grammar line.now) }
    ensures blank { is_passed_over line.now ≡ true → result ≡ Ok None }
{
    if let [] | [b'#', ..] = line {
        return Ok(None);
    }
    record_of::<K>(alloc, Pieces::of(line, b' '))
}
