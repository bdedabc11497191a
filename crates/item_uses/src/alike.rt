//! Items that ask for the same.

ghost use Rattle.std.specs.Prelude.{◌≡◌, ◌<◌, true, length, IfOk};
ghost use Rattle.vocabulary.specs.Prelude.{Tables};
ghost use Rattle.item_uses.specs.Usages.{usages, usages_at};
ghost use Rattle.item_uses.specs.Representatives.{AreAlike, AreRepresentatives};

use crate::item::ItemUses;
use crate::usage::Use;
use point_set::PointSet;
use std::alloc::{AllocError, Global};
use std::collections::HashMap;

/// Whether two lists of requirements are the same but for their points.
pub(crate) fn are_alike<'a, P: PointSet + Copy>(ours: &[Use<'a, P>], theirs: &[Use<'a, P>]) -> bool
    ensures { result ≡ true → AreAlike ours.now theirs.now }
{
    if ours.len() != theirs.len() {
        return false;
    }
    for i in 0..ours.len() {
        if !ours[i].is_alike(&theirs[i]) {
            return false;
        }
    }
    true
}

/// The item that stands for one: the first with its fingerprint, if that asks for the same, else itself.
fn representative<'a, P: PointSet + Copy>(
    items: &[ItemUses<'a, P>],
    first: Option<usize>,
    item: usize,
) -> usize
    requires { item < length items.now }
    ensures { AreAlike (usages_at items.now result) (usages_at items.now item) }
{
    match first {
        Some(first) => {
            if first < items.len() && items[first].is_alike(&items[item]) {
                first
            } else {
                item
            }
        }
        None => item,
    }
}

/// For each item one that asks for the same: the first, so far as fingerprints tell. Takes little more time than the items have requirements and fields.
pub fn representatives<'a, P: PointSet + Copy>(
    alloc: Global,
    items: &[ItemUses<'a, P>],
) -> Result<Vec<usize>, AllocError>
    ensures { IfOk result (λ chosen. (t : Tables) → usages t ≡ items.now
        → AreRepresentatives chosen.items items.now) }
{
    let mut firsts = HashMap::new(alloc);
    let mut chosen = Vec::new(alloc);
    for i in 0..items.len() {
        let print = items[i].fingerprint();
        let first = firsts.get(&print).copied();
        if first.is_none() {
            firsts.insert(print, i)?;
        }
        chosen.push(representative(items, first, i))?;
    }
    Ok(chosen)
}
