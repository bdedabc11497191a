//! Copies of records, with other fields.

ghost use Rattle.std.specs.Prelude.{◌≡◌, ℕ, List, filter, IfOk};
ghost use Rattle.spy_grammar.specs.declared.record.Record.TheVariants as records;
ghost use Rattle.vocabulary.specs.Prelude.{is_in};
ghost use Rattle.field_laws.specs.CutFields.{cut_record};
ghost use Rattle.field_kinds.specs.Lists.{listed, other_numbers};

use spy_grammar::Record;
use spy_words::{ListOf, Nums, Rects, Set};
use std::alloc::{AllocError, Global};

/// A space with the same runs of points.
fn copy_of_space(alloc: Global, id: u32, set: &Set) -> Result<Record, AllocError>
    ensures { IfOk result (λ copy. copy ≡ records.Ispace id set.now) }
{
    let set = ListOf::from_vec(Vec::from_slice(alloc, set.as_slice())?);
    Ok(Record::Ispace { id, set })
}

/// A space with the same rectangles.
fn copy_of_plane(alloc: Global, id: u32, rects: &Rects) -> Result<Record, AllocError>
    ensures { IfOk result (λ copy. copy ≡ records.Plane id rects.now) }
{
    let rects = ListOf::from_vec(Vec::from_slice(alloc, rects.as_slice())?);
    Ok(Record::Plane { id, rects })
}

/// A copy of a record, with these fields, and with these numbers in place of its others.
#[rattlefmt::skip]
pub(crate) fn copy_with(alloc: Global, rec: &Record, fields: Nums, others: Nums) -> Result<Record, AllocError>
    ensures { (kept : List ℕ) → fields ≡ filter (is_in kept) (listed rec.now) → others ≡ other_numbers rec.now
        → IfOk result (λ copy. copy ≡ cut_record kept rec.now) }
{
    match rec {
        Record::Header { version } => Ok(Record::Header { version: *version }),
        Record::Ispace { id, set } => copy_of_space(alloc, *id, set),
        Record::Plane { id, rects } => copy_of_plane(alloc, *id, rects),
        Record::Part { id, space, disjoint } => Ok(Record::Part { id: *id, space: *space, disjoint: *disjoint }),
        Record::Sub { part, colour, space } => Ok(Record::Sub { part: *part, colour: *colour, space: *space }),
        Record::Fields { id, .. } => Ok(Record::Fields { id: *id, fields: others }),
        Record::Tree { id, space, fspace } => Ok(Record::Tree { id: *id, space: *space, fspace: *fspace }),
        Record::Redop { id } => Ok(Record::Redop { id: *id }),
        Record::Task { id } => Ok(Record::Task { id: *id }),
        Record::Req { task, tree, space, access, atomic, .. } => Ok(Record::Req {
            task: *task, tree: *tree, space: *space, fields, access: *access, atomic: *atomic,
        }),
        Record::Fill { id, tree, space, n, .. } => Ok(Record::Fill { id: *id, tree: *tree, space: *space, fields, n: *n }),
        Record::Serial { .. } => Ok(Record::Serial { items: others }),
        Record::Inst { id, tree, space, kind, .. } => Ok(Record::Inst { id: *id, tree: *tree, space: *space, fields, kind: *kind }),
        Record::Map { task, req, inst, .. } => Ok(Record::Map { task: *task, req: *req, fields, inst: *inst }),
        Record::Run { task, done, .. } => Ok(Record::Run { task: *task, done: *done, waits: others }),
        Record::Copy { src, dst, space, done, .. } => Ok(Record::Copy {
            src: *src, dst: *dst, space: *space, fields, done: *done, waits: others,
        }),
        Record::Put { inst, space, n, done, .. } => Ok(Record::Put {
            inst: *inst, space: *space, fields, n: *n, done: *done, waits: others,
        }),
        Record::Reset { inst, space, done, .. } => Ok(Record::Reset { inst: *inst, space: *space, fields, done: *done, waits: others }),
        Record::Fold { src, dst, space, done, .. } => Ok(Record::Fold {
            src: *src, dst: *dst, space: *space, fields, done: *done, waits: others,
        }),
        Record::Merge { done, .. } => Ok(Record::Merge { done: *done, waits: others }),
        Record::End { n } => Ok(Record::End { n: *n }),
    }
}
