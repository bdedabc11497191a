//! The first field of each kind of a log.

ghost use Rattle.std.specs.Prelude.{◌≡◌, ◌↔◌, ◌++◌, ℕ, Contains, IfOk, IfSome, OnOk};
ghost use Rattle.std.specs.List.Sorted.{IsStrictlyIncreasing};
ghost use Rattle.field_laws.specs.Fields.{AreFirsts, field_lists};
ghost use Rattle.field_kinds.specs.Lists.{declared_in};

use crate::kinds::kinds_of;
use crate::lists::declared_fields;
use partings::leads;
use spy_grammar::Lined;
use std::alloc::{AllocError, Global};

/// A log with fewer fields than these is not cut to first ones: that would take as long as it saves.
pub const FEWEST_FIELDS: usize = 8;

/// Adds some fields at the end of a list.
fn push_fields(fields: &mut Vec<u64>, list: &[u32]) -> Result<(), AllocError>
    ensures { OnOk result (fields.new.items ≡ fields.old.items ++ list.now) }
{
    for field in list {
        fields.push(u64::from(*field))?;
    }
    Ok(())
}

/// The fields that a log declares, each once, in ascending order.
fn declared_in(alloc: Global, records: &[Lined]) -> Result<Vec<u64>, AllocError>
    ensures just { IfOk result (λ fields. (f : ℕ) → Contains fields.items f ↔ Contains (declared_in records.now) f) }
    ensures ascend { IfOk result (λ fields. IsStrictlyIncreasing fields.items) }
{
    let mut fields = Vec::new(alloc);
    for record in records {
        push_fields(&mut fields, declared_fields(&record.rec))?;
    }
    fields.sort_unstable();
    fields.dedup();
    Ok(fields)
}

/// The first fields of a log, in ascending order: one of each kind. Fields that no list of the log tells apart are of one kind.
///
/// Nothing where the log declares fewer than `FEWEST_FIELDS` fields, or more than half of its fields are first ones; nor where it lists
/// fields that it does not declare, or that do not ascend, or very many.
pub fn first_fields(alloc: Global, records: &[Lined]) -> Result<Option<Vec<u64>>, AllocError>
    ensures firsts { IfOk result (λ r. IfSome r (λ firsts. AreFirsts (field_lists records.now) firsts.items)) }
    ensures ascend { IfOk result (λ r. IfSome r (λ firsts. IsStrictlyIncreasing firsts.items)) }
{
    let fields = declared_in(alloc, records)?;
    if fields.len() < FEWEST_FIELDS {
        return Ok(None);
    }
    let Some(kinds) = kinds_of(alloc, records, &fields)? else {
        return Ok(None);
    };
    let firsts = leads(alloc, &kinds.numbers, kinds.end, &fields)?;
    if firsts.len() > fields.len() / 2 {
        return Ok(None);
    }
    Ok(Some(firsts))
}
