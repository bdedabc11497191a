//! Where the fields of a list stand among all fields.

ghost use Rattle.std.specs.Prelude.{◌≡◌, ◌<◌, ◌≤◌, get_or, length, IfOk, IfSome};
ghost use Rattle.field_kinds.specs.Places.{ArePlaces};

use std::alloc::{AllocError, Global};

/// The place of a field from a place on, by a binary search if it does not stand there.
fn place_from(fields: &[u64], from: usize, field: u64) -> Option<usize>
    ensures { IfSome result (λ place. (from ≤ place) × (place < length fields.now) × (get_or fields.now place 0 ≡ field)) }
{
    if fields.get(from) == Some(&field) {
        return Some(from);
    }
    let place = fields.partition_point(|f| *f < field);
    if place < from || fields.get(place) != Some(&field) {
        return None;
    }
    Some(place)
}

/// The places of some fields among all. Nothing where one is not there, or not after the one before it.
pub(crate) fn places_of(
    alloc: Global,
    list: &[u32],
    fields: &[u64],
) -> Result<Option<Vec<usize>>, AllocError>
    ensures { IfOk result (λ r. IfSome r (λ places. ArePlaces list.now fields.now places.items)) }
{
    let mut places = Vec::new(alloc);
    let mut from = 0;
    for field in list {
        let Some(place) = place_from(fields, from, u64::from(*field)) else {
            return Ok(None);
        };
        places.push(place)?;
        from = place + 1;
    }
    Ok(Some(places))
}
