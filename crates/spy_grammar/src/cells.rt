//! A record, taken apart.

ghost use Rattle.std.specs.Prelude.{◌≡◌, []};
ghost use Rattle.spy_grammar.specs.Cells.{items_in, parts_items, with_cell};
ghost use Rattle.spy_grammar.specs.Rows.{parts_of};

use crate::cells::WordCell::*;
use crate::kinds::RecordKind;
use crate::record::Record;
use spy_words::{InstKind, Nums, PrivWord, Rects, Set};

/// A word of a record by its class, no word, or all the ids of a record.
#[derive(Clone, Copy)]
pub enum WordCell<'a> {
    No,
    Number(u32),
    /// An id or an event.
    Id(u32),
    Points(&'a Set),
    Plane(&'a Rects),
    Fields(&'a Nums),
    Waits(&'a Nums),
    Split(bool),
    Access(PrivWord),
    Coherence(bool),
    Layout(InstKind),
    Ids(&'a Nums),
}

/// The kind of a record, and the words after the first, from the left.
#[tactic(auto, using(crate::proofs::CellLaws::parts_told))]
#[rattlefmt::skip]
pub fn cells_of(rec: &Record) -> (RecordKind, [WordCell<'_>; 6])
    ensures kind { result.0 ≡ (parts_of rec.now).0 }
    ensures items { items_in result.1 ≡ parts_items (parts_of rec.now) }
{
    match rec {
        Record::Header { version } => (RecordKind::Header, [Number(*version), No, No, No, No, No]),
        Record::Ispace { id, set } => (RecordKind::Ispace, [Id(*id), Points(set), No, No, No, No]),
        Record::Plane { id, rects } => (RecordKind::Ispace, [Id(*id), Plane(rects), No, No, No, No]),
        Record::Part { id, space, disjoint } => (RecordKind::Part, [Id(*id), Id(*space), Split(*disjoint), No, No, No]),
        Record::Sub { part, colour, space } => (RecordKind::Sub, [Id(*part), Number(*colour), Id(*space), No, No, No]),
        Record::Fields { id, fields } => (RecordKind::Fields, [Id(*id), Fields(fields), No, No, No, No]),
        Record::Tree { id, space, fspace } => (RecordKind::Tree, [Id(*id), Id(*space), Id(*fspace), No, No, No]),
        Record::Redop { id } => (RecordKind::Redop, [Id(*id), No, No, No, No, No]),
        Record::Task { id } => (RecordKind::Task, [Id(*id), No, No, No, No, No]),
        Record::Req { task, tree, space, fields, access, atomic } => (RecordKind::Req, [Id(*task), Id(*tree), Id(*space), Fields(fields), Access(*access), Coherence(*atomic)]),
        Record::Fill { id, tree, space, fields, n } => (RecordKind::Fill, [Id(*id), Id(*tree), Id(*space), Fields(fields), Number(*n), No]),
        Record::Serial { items } => (RecordKind::Serial, [Ids(items), No, No, No, No, No]),
        Record::Inst { id, tree, space, fields, kind } => (RecordKind::Inst, [Id(*id), Id(*tree), Id(*space), Fields(fields), Layout(*kind), No]),
        Record::Map { task, req, fields, inst } => (RecordKind::Map, [Id(*task), Id(*req), Fields(fields), Id(*inst), No, No]),
        Record::Run { task, done, waits } => (RecordKind::Run, [Id(*task), Id(*done), Waits(waits), No, No, No]),
        Record::Copy { src, dst, space, fields, done, waits } => (RecordKind::Copy, [Id(*src), Id(*dst), Id(*space), Fields(fields), Id(*done), Waits(waits)]),
        Record::Put { inst, space, fields, n, done, waits } => (RecordKind::Put, [Id(*inst), Id(*space), Fields(fields), Number(*n), Id(*done), Waits(waits)]),
        Record::Reset { inst, space, fields, done, waits } => (RecordKind::Reset, [Id(*inst), Id(*space), Fields(fields), Id(*done), Waits(waits), No]),
        Record::Fold { src, dst, space, fields, done, waits } => (RecordKind::Fold, [Id(*src), Id(*dst), Id(*space), Fields(fields), Id(*done), Waits(waits)]),
        Record::Merge { done, waits } => (RecordKind::Merge, [Id(*done), Waits(waits), No, No, No, No]),
        Record::End { n } => (RecordKind::End, [Number(*n), No, No, No, No, No]),
    }
}
