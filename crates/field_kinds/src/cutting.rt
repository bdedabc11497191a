//! Logs that are cut to some fields.

ghost use Rattle.std.specs.Prelude.{◌≡◌, ◌≢◌, ℕ, [], false, true, All, IfNone, IfOk, IfSome, filter};
ghost use Rattle.std.specs.List.Sorted.{IsStrictlyIncreasing};
ghost use Rattle.vocabulary.specs.Prelude.{AreLines, Good, Lined, is_in};
ghost use Rattle.field_laws.specs.CutFields as cuts;
ghost use Rattle.field_kinds.specs.Lists.{LosesAll, SomeLosesAll};

use crate::copying::copy_with;
use crate::lists::{listed_fields, other_numbers};
use spy_grammar::{Lined, Record};
use spy_words::Nums;
use std::alloc::{AllocError, Global};

/// Whether a field is among some that ascend, by a binary search.
fn is_among(fields: &[u64], field: u32) -> bool
    requires { IsStrictlyIncreasing fields.now }
    ensures { result ≡ is_in fields.now field }
{
    fields.binary_search(&u64::from(field)).is_ok()
}

/// Those fields of a list that are kept, in the order of the list.
fn kept_fields(alloc: Global, list: &[u32], kept: &[u64]) -> Result<Vec<u32>, AllocError>
    requires { IsStrictlyIncreasing kept.now }
    ensures { IfOk result (λ fields. fields.items ≡ filter (is_in kept.now) list.now) }
{
    let mut fields = Vec::new(alloc);
    for field in list {
        if is_among(kept, *field) {
            fields.push(*field)?;
        }
    }
    Ok(fields)
}

/// Whether fields were listed, and none of them is left.
fn is_none_left(list: &[u32], left: &[u32]) -> bool
    ensures none { result ≡ true → (list.now ≢ []) × (left.now ≡ []) }
    ensures some { result ≡ false → list.now ≢ [] → left.now ≢ [] }
{
    left.is_empty() && !list.is_empty()
}

/// A record with these of its fields alone, or nothing where it would have no field left.
fn cut_record(alloc: Global, rec: &Record, kept: &[u64]) -> Result<Option<Record>, AllocError>
    requires ascend { IsStrictlyIncreasing kept.now }
    ensures cut { IfOk result (λ r. IfSome r (λ cut. cut ≡ cuts.cut_record kept.now rec.now)) }
    ensures good { Good rec.now → IfOk result (λ r. IfSome r (λ cut. Good cut)) }
    ensures none { IfOk result (λ r. IfNone r (LosesAll kept.now rec.now)) }
{
    let list = listed_fields(rec);
    let fields = kept_fields(alloc, list, kept)?;
    if is_none_left(list, &fields) {
        return Ok(None);
    }
    let fields = Nums::from_slice(alloc, fields.as_slice())?;
    let others = Nums::from_slice(alloc, other_numbers(rec))?;
    let cut = copy_with(alloc, rec, fields, others)?;
    Ok(Some(cut))
}

/// The records of a log with these fields alone, on the same lines. Nothing where a record would have no field left.
pub fn cut_records(
    alloc: Global,
    records: &[Lined],
    fields: &[u64],
) -> Result<Option<Vec<Lined>>, AllocError>
    requires ascend { IsStrictlyIncreasing fields.now }
    ensures cut { IfOk result (λ r. IfSome r (λ cut. cut.items ≡ cuts.cut_log fields.now records.now)) }
    ensures good { All (λ (l : Lined). Good l.rec) records.now → IfOk result (λ r. IfSome r (λ cut.
        All (λ (l : Lined). Good l.rec) cut.items)) }
    ensures lines { (lines : ℕ) → AreLines lines records.now → IfOk result (λ r. IfSome r (λ cut.
        AreLines lines cut.items)) }
    ensures none { IfOk result (λ r. IfNone r (SomeLosesAll fields.now records.now)) }
{
    let mut cut = Vec::new(alloc);
    for record in records {
        let Some(rec) = cut_record(alloc, &record.rec, fields)? else {
            return Ok(None);
        };
        cut.push(Lined {
            line: record.line,
            rec,
        })?;
    }
    Ok(Some(cut))
}
