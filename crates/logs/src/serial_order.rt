//! The serial order of the items of a log.

ghost use Rattle.std.specs.Prelude.{◌≡◌, ◌++◌, ◌<◌, ℕ, nat_eq, map, flat_map, length, IfOk, OnOk, if◌then◌else◌, Some};
ghost use Rattle.std.specs.List.{range_with_len};
ghost use Rattle.std.specs.HashMap.{get};
ghost use Rattle.vocabulary.specs.Prelude.{is_in, place_of};
ghost use Rattle.semantics.specs.SerialOrder.{listed, serial};
ghost use Rattle.logs.specs.Listing.{line_listing, ArePlacesIn};

use log_tables::LogTables;
use point_set::PointSet;
use semantics::Serial;
use std::alloc::{AllocError, Global};
use std::collections::HashMap;

/// All positions below a count, upward.
#[tactic(auto, using(crate::proofs::Numbers::numbers_more))]
fn program_order(alloc: Global, count: usize) -> Result<Vec<usize>, AllocError>
    ensures { IfOk result (λ order. order.items ≡ range_with_len 0 count) }
{
    let mut order = Vec::with_capacity(alloc, count)?;
    for item in 0..count {
        order.push(item)?;
    }
    Ok(order)
}

/// The positions of the items with these ids.
fn places_of_ids<P: PointSet>(
    alloc: Global,
    tables: &LogTables<P>,
    ids: &[u32],
) -> Result<Vec<usize>, AllocError>
    ensures { IfOk result (λ places. places.items ≡ map (place_of tables.now.items) ids.now) }
{
    ids.iter().map(|id| tables.place(*id)).collect(alloc)
}

/// The positions of the items that are listed, in their order.
fn listed_order<P: PointSet>(alloc: Global, tables: &LogTables<P>) -> Result<Vec<usize>, AllocError>
    ensures { IfOk result (λ order. order.items ≡ map (place_of tables.now.items) (listed tables.now)) }
{
    let mut order = Vec::new(alloc);
    for list in tables.serials() {
        let places = places_of_ids(alloc, tables, list.ids.as_slice())?;
        order.extend_from_slice(&places)?;
    }
    Ok(order)
}

/// The positions of all items in serial order.
pub(crate) fn serial_order<P: PointSet>(
    alloc: Global,
    tables: &LogTables<P>,
) -> Result<Vec<usize>, AllocError>
    ensures { IfOk result (λ order. order.items ≡ serial tables.now) }
{
    if tables.serials().is_empty() {
        program_order(alloc, tables.items().len())
    } else {
        listed_order(alloc, tables)
    }
}

/// For each item its place in an order, which is the length of the order where it does not stand there.
pub(crate) fn serial_places(
    alloc: Global,
    count: usize,
    order: &[usize],
) -> Result<Vec<usize>, AllocError>
    ensures { IfOk result (λ places. ArePlacesIn order.now count places.items) }
{
    let mut places = vec![in alloc; order.len(); count]?;
    for k in (0..order.len()).rev() {
        let item = order[k];
        if item < count {
            places[item] = k;
        }
    }
    Ok(places)
}

/// Notes the line that lists some items.
fn note_line(lines: &mut HashMap<u32, u32>, ids: &[u32], line: u32) -> Result<(), AllocError>
    ensures { OnOk result ((id : ℕ) → get nat_eq lines.new id
        ≡ (if is_in ids.now id then Some line else get nat_eq lines.old id)) }
{
    for id in ids {
        lines.insert(*id, line)?;
    }
    Ok(())
}

/// For each item that is listed, by its id, the first line that lists it.
pub(crate) fn serial_lines(
    alloc: Global,
    serials: &[Serial],
) -> Result<HashMap<u32, u32>, AllocError>
    ensures { IfOk result (λ lines. (id : ℕ) → get nat_eq lines id ≡ line_listing serials.now id) }
{
    let mut lines = HashMap::new(alloc);
    // From the back, so that the first line of several is noted last.
    for k in (0..serials.len()).rev() {
        let list = &serials[k];
        note_line(&mut lines, list.ids.as_slice(), list.line)?;
    }
    Ok(lines)
}
