//! How many pairs of items meet.

ghost use Rattle.std.specs.Prelude.{◌≡◌, ◌+◌, ◌<◌, ◌≤◌, ◌^◌, ◌*◌, ◌||◌, [], ℕ, All, IfOk, false, length};
ghost use Rattle.std.specs.List.{slice_index_or};
ghost use Rattle.pair_rows.specs.Counting.{sum_below};
ghost use Rattle.pair_rows.specs.Meetings.{IsPlace, later_in_row, later_met, met_at_some, met_below, row_bit};

use crate::counting::{count_all, count_from};
use crate::places::Places;
use crate::rows::mark_place;
use bit_words::no_bits;
use std::alloc::{AllocError, Global};

/// Adds to the row of each item those of 1,024 items in a row that it meets at some place.
fn mark_places(rows: &mut Vec<[u64; 16]>, places: &Places, base: usize)
    requires { All IsPlace places.now }
    ensures rows { length rows.new.items ≡ length rows.old.items }
    ensures bits { (a i : ℕ) → a < length rows.old.items → i < 1024 → row_bit rows.new.items a i
        ≡ (row_bit rows.old.items a i || met_at_some places.now a (base + i)) }
{
    for k in 0..places.len() {
        mark_place(rows, places.users(k), base);
    }
}

/// How many of 1,024 items in a row come after an item, and have their bits in its row.
fn count_row(row: &[u64; 16], a: usize, base: usize) -> u64
    requires { a < base + 1024 }
    ensures count { result ≡ later_in_row row.now a base }
    ensures few { result ≤ 1024 }
{
    if a < base {
        count_all(row)
    } else {
        count_from(row, a - base + 1)
    }
}

/// The same for all rows.
fn count_rows(rows: &[[u64; 16]], base: usize) -> u64
    requires few { length rows.now < 2 ^ 33 }
    requires rows { length rows.now ≤ base + 1024 }
    ensures count { result
        ≡ sum_below (λ a. later_in_row (slice_index_or rows.now a []) a base) (length rows.now) }
    ensures few { result ≤ 1024 * length rows.now }
{
    let mut count: u64 = 0;
    for a in 0..rows.len() {
        count += count_row(&rows[a], a, base);
    }
    count
}

/// Rows without a bit.
fn empty_rows(alloc: Global, count: usize) -> Result<Vec<[u64; 16]>, AllocError>
    ensures rows { IfOk result (λ rows. length rows.items ≡ count) }
    ensures none { IfOk result (λ rows. (a i : ℕ) → a < count → i < 1024 → row_bit rows.items a i ≡ false) }
{
    let mut rows = Vec::with_capacity(alloc, count)?;
    for _k in 0..count {
        rows.push(no_bits())?;
    }
    Ok(rows)
}

/// For each of the first items the bits of those of 1,024 items in a row that it meets at some place.
pub fn meeting_rows(
    alloc: Global,
    places: &Places,
    count: usize,
    base: usize,
) -> Result<Vec<[u64; 16]>, AllocError>
    requires { All IsPlace places.now }
    ensures rows { IfOk result (λ rows. length rows.items ≡ count) }
    ensures bits { IfOk result (λ rows. (a i : ℕ) → a < count → i < 1024
        → row_bit rows.items a i ≡ met_at_some places.now a (base + i)) }
{
    let mut rows = empty_rows(alloc, count)?;
    mark_places(&mut rows, places, base);
    Ok(rows)
}

/// How many pairs of items meet of which the later is one of 1,024 in a row.
fn count_block(alloc: Global, places: &Places, items: usize, base: usize) -> Result<u64, AllocError>
    requires few { items < 2 ^ 32 }
    requires base { base < items }
    requires places { All IsPlace places.now }
    ensures { IfOk result (λ n. n ≡ sum_below (later_met places.now base) items) }
{
    let count = items.min(base + 1024);
    let rows = meeting_rows(alloc, places, count, base)?;
    Ok(count_rows(rows.as_slice(), base))
}

/// How many pairs of items meet at some place. Each user of a place takes 16 words of work for each 1,024 items.
pub fn count_pairs(alloc: Global, places: &Places, items: usize) -> Result<u64, AllocError>
    requires few { items < 2 ^ 32 }
    requires places { All IsPlace places.now }
    requires within { (a b : ℕ) → items ≤ b → met_at_some places.now a b ≡ false }
    ensures { IfOk result (λ n. n ≡ sum_below (met_below places.now items) items) }
{
    let mut count: u64 = 0;
    let mut base = 0;
    while base < items {
        let more = count_block(alloc, places, items, base)?;
        count += more;
        base += 1024;
    }
    Ok(count)
}
