//! The first two tasks that interfere and are not run in serial order, by rows of bits.

ghost use Rattle.std.specs.Prelude.{◌≡◌, ◌+◌, ◌<◌, ◌^◌, length, IfOk};
ghost use Rattle.std.specs.Option.{option_map_or};
ghost use Rattle.task_order.specs.Users.{AreTaskPlaces};
ghost use Rattle.task_order.specs.Rows.{AreRows, IsFoundBefore, IsFoundIn, IsFoundOf, IsRow, IsSchedule};

use crate::kept::{Schedule, is_kept};
use crate::sifting::sifted_rows;
use bit_words::{has, is_empty};
use pair_rows::Places;
use point_set::PointSet;
use std::alloc::{AllocError, Global};

/// Of the later of 1,024 items in a row with which an item interferes the first with which it is not run in serial order.
fn first_in_row<'a, P: PointSet + Copy>(
    schedule: &Schedule<'_, 'a, P>,
    row: &[u64; 16],
    base: usize,
    a: usize,
) -> Option<usize>
    requires few { base < 2 ^ 32 }
    requires row { IsRow schedule.now.log.now base a row.now }
    requires schedule { IsSchedule schedule.now }
    ensures { IsFoundOf schedule.now.log.now base (base + 1024) a result }
{
    if is_empty(row) {
        return None;
    }
    for i in 0..1024 {
        let b = base + i;
        if a < b && has(row, i) && !is_kept(schedule, a, b) {
            return Some(b);
        }
    }
    None
}

/// Of the items that have rows the first that is not run in serial order with some later item of its row, and the first such item.
fn first_in_rows<'a, P: PointSet + Copy>(
    schedule: &Schedule<'_, 'a, P>,
    rows: &[[u64; 16]],
    base: usize,
) -> Option<(usize, usize)>
    requires few { base < 2 ^ 32 }
    requires rows { AreRows schedule.now.log.now base rows.now }
    requires schedule { IsSchedule schedule.now }
    ensures { IsFoundIn schedule.now.log.now base (base + 1024) (length rows.now) result }
{
    for a in 0..rows.len() {
        if let Some(b) = first_in_row(schedule, &rows[a], base, a) {
            return Some((a, b));
        }
    }
    None
}

/// Of how many items a lesser pair may be found.
fn items_before(found: Option<(usize, usize)>, items: usize) -> usize
    ensures { result ≡ option_map_or (λ p. p.0) found items }
{
    match found {
        Some((a, _)) => a,
        None => items,
    }
}

/// What is found with 1,024 items more.
fn found_in_block<'a, P: PointSet + Copy>(
    alloc: Global,
    schedule: &Schedule<'_, 'a, P>,
    places: &Places,
    found: Option<(usize, usize)>,
    base: usize,
) -> Result<Option<(usize, usize)>, AllocError>
    requires few { base < 2 ^ 32 }
    requires schedule { IsSchedule schedule.now }
    requires places { AreTaskPlaces schedule.now.log.now places.now }
    requires found { IsFoundBefore schedule.now.log.now base found }
    ensures { IfOk result (IsFoundBefore schedule.now.log.now (base + 1024)) }
{
    let items = schedule.log.items().len();
    let count = items_before(found, items).min(base + 1024);
    let rows = sifted_rows(alloc, schedule, places, count, base)?;
    match first_in_rows(schedule, &rows, base) {
        Some(pair) => Ok(Some(pair)),
        None => Ok(found),
    }
}

/// The first two tasks that interfere and are not run in serial order. Only rows of items before the first that is found so far are made.
pub(crate) fn first_unkept<'a, P: PointSet + Copy>(
    alloc: Global,
    schedule: &Schedule<'_, 'a, P>,
    places: &Places,
) -> Result<Option<(usize, usize)>, AllocError>
    requires few { length schedule.now.log.now.items < 2 ^ 32 }
    requires schedule { IsSchedule schedule.now }
    requires places { AreTaskPlaces schedule.now.log.now places.now }
    ensures { IfOk result (IsFoundBefore schedule.now.log.now (length schedule.now.log.now.items)) }
{
    let items = schedule.log.items().len();
    let mut found = None;
    let mut base = 0;
    while base < items {
        found = found_in_block(alloc, schedule, places, found, base)?;
        base += 1024;
    }
    Ok(found)
}
