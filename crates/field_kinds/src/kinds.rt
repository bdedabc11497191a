//! The kinds of fields, by number.

ghost use Rattle.std.specs.Prelude.{◌≡◌, ◌⊎◌, ◌<◌, ◌≤◌, ◌++◌, ◌∷◌, ℕ, List, [], All, IfOk, IfSome, false, length, replicate, true};
ghost use Rattle.std.specs.List.Sorted.{IsStrictlyIncreasing};
ghost use Rattle.field_kinds.specs.Lists.{lists_of};
ghost use Rattle.field_kinds.specs.Kinds.{AreKinds};

use crate::lists::listed_fields;
use crate::places::places_of;
use partings::part;
use spy_grammar::Lined;
use std::alloc::{AllocError, Global};

/// Fields are parted while the lists that part them have no more fields together. Each takes a look-up.
const MOST_LISTED: usize = 4_194_304;

/// For each of some fields the number of its kind, and a number that is above all of these.
#[derive(Drop)]
pub(crate) struct Kinds {
    pub(crate) numbers: Vec<usize>,
    pub(crate) end: usize,
}

/// Whether a list may tell more fields apart than the list before it does.
fn may_tell(list: &[u32], before: &[u32]) -> bool
    ensures { result ≡ false → (list.now ≡ []) ⊎ (list.now ≡ before.now) }
{
    !list.is_empty() && list != before
}

impl Kinds {
    /// All fields of one kind.
    fn of_one(alloc: Global, count: usize) -> Result<Kinds, AllocError>
        ensures numbers { IfOk result (λ kinds. kinds.numbers.items ≡ replicate count 0) }
        ensures end { IfOk result (λ kinds. kinds.end ≡ 1) }
    {
        Ok(Kinds {
            numbers: vec![in alloc; 0usize; count]?,
            end: 1,
        })
    }

    /// Parts the kinds of some fields by a list, and says whether that could be done.
    fn part_by(&mut self, alloc: Global, list: &[u32], fields: &[u64]) -> Result<bool, AllocError>
        requires ascend { IsStrictlyIncreasing fields.now }
        requires each { length self.old.numbers.items ≡ length fields.now }
        requires below { All (λ n. n < self.old.end) self.old.numbers.items }
        requires few { self.old.end ≤ MOST_LISTED }
        ensures kinds { (lists : List (List ℕ)) → AreKinds lists fields.now self.old.numbers.items
            → IfOk result (λ is. is ≡ true → AreKinds (lists ++ list.now ∷ []) fields.now self.new.numbers.items) }
        ensures below { IfOk result (λ is. is ≡ true → All (λ n. n < self.new.end) self.new.numbers.items) }
        ensures few { IfOk result (λ is. is ≡ true → self.new.end ≤ MOST_LISTED) }
    {
        let Some(places) = places_of(alloc, list, fields)? else {
            return Ok(false);
        };
        if places.len() > MOST_LISTED - self.end {
            return Ok(false);
        }
        part(alloc, &mut self.numbers, &places, self.end)?;
        self.end += places.len();
        Ok(true)
    }
}

/// The kinds of fields that ascend, which are parted by one list of a log after the other. Nothing where a list does not ascend, or has a
/// field that is not among these, and where the lists that part them have more fields together than `MOST_LISTED`.
pub(crate) fn kinds_of(
    alloc: Global,
    records: &[Lined],
    fields: &[u64],
) -> Result<Option<Kinds>, AllocError>
    requires ascend { IsStrictlyIncreasing fields.now }
    ensures kinds { IfOk result (λ r. IfSome r (λ k. AreKinds (lists_of records.now) fields.now k.numbers.items)) }
    ensures below { IfOk result (λ r. IfSome r (λ k. All (λ n. n < k.end) k.numbers.items)) }
{
    let mut kinds = Kinds::of_one(alloc, fields.len())?;
    let mut before: &[u32] = &[];
    for record in records {
        let list = listed_fields(&record.rec);
        if !may_tell(list, before) {
            continue;
        }
        if !kinds.part_by(alloc, list, fields)? {
            return Ok(None);
        }
        before = list;
    }
    Ok(Some(kinds))
}
