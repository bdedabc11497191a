//! Rows of the pairs of tasks that may not be run in serial order.

ghost use Rattle.std.specs.Prelude.{◌≡◌, ◌+◌, ◌<◌, ◌^◌, ◌&&◌, ◌||◌, ℕ, not, length, IfOk};
ghost use Rattle.cell_races.specs.Turns.{is_noted};
ghost use Rattle.bit_words.specs.Bits.{has_bit};
ghost use Rattle.pair_rows.specs.Meetings.{row_bit};
ghost use Rattle.task_order.specs.Users.{AreTaskPlaces};
ghost use Rattle.task_order.specs.Rows.{AreRows, IsSchedule};

use crate::kept::Schedule;
use bit_words::{minus, no_bits, set};
use pair_rows::{Places, meeting_rows};
use point_set::PointSet;
use std::alloc::{AllocError, Global};

/// Whether an item is unordered.
fn is_unordered(unordered: &[bool], item: usize) -> bool
    ensures { result ≡ is_noted unordered.now item }
{
    item < unordered.len() && unordered[item]
}

/// The bits of those of 1,024 items in a row that are not unordered.
fn bits_of_others(unordered: &[bool], base: usize) -> [u64; 16]
    requires { base < 2 ^ 32 }
    ensures { (i : ℕ) → i < 1024 → has_bit result i ≡ not (is_noted unordered.now (base + i)) }
{
    let mut bits = no_bits();
    for i in 0..1024 {
        if !is_unordered(unordered, base + i) {
            set(&mut bits, i);
        }
    }
    bits
}

/// Leaves in the row of each item that is not unordered the bits of unordered items alone.
fn sift(rows: &mut Vec<[u64; 16]>, unordered: &[bool], base: usize)
    requires { base < 2 ^ 32 }
    ensures rows { length rows.new.items ≡ length rows.old.items }
    ensures bits { (a i : ℕ) → a < length rows.old.items → i < 1024 → row_bit rows.new.items a i
        ≡ (row_bit rows.old.items a i && (is_noted unordered.now a || is_noted unordered.now (base + i))) }
{
    let others = bits_of_others(unordered, base);
    for a in 0..rows.len() {
        if !is_unordered(unordered, a) {
            minus(&mut rows[a], &others);
        }
    }
}

/// For each of the first items the bits of those of 1,024 items in a row with which it interferes, but of pairs that are known to be run in serial order.
pub(crate) fn sifted_rows<'a, P: PointSet + Copy>(
    alloc: Global,
    schedule: &Schedule<'_, 'a, P>,
    places: &Places,
    count: usize,
    base: usize,
) -> Result<Vec<[u64; 16]>, AllocError>
    requires few { base < 2 ^ 32 }
    requires schedule { IsSchedule schedule.now }
    requires places { AreTaskPlaces schedule.now.log.now places.now }
    ensures count { IfOk result (λ rows. length rows.items ≡ count) }
    ensures rows { IfOk result (λ rows. AreRows schedule.now.log.now base rows.items) }
{
    let mut rows = meeting_rows(alloc, places, count, base)?;
    sift(&mut rows, schedule.unordered, base);
    Ok(rows)
}
