//! A tag more in each column.

ghost use Rattle.std.specs.Prelude.{◌≡◌, ℕ, ◌+◌, ◌*◌, ◌/◌, ◌<◌, ◌≤◌, [], length, map, true, All, OnOk, slice_index_or};
ghost use Rattle.std.specs.List.{list_any};
ghost use Rattle.bit_words.specs.Bits.{has_bit};
ghost use Rattle.reach_marks.specs.Blocks.{block_of, reaches, reaches_in};
ghost use Rattle.reach_marks.specs.Columns.{AddsTag, AddsTags, AreColumns, AreTags, columns_in, rows_in};
ghost use Rattle.reach_marks.specs.Unions.{bits_have};

use crate::column::Column;
use crate::tags::{joined_tag, tag_of_bits};
use std::alloc::AllocError;

/// The bits of a row, block by block. So many blocks at the front are whole.
#[derive(Clone, Copy)]
pub(crate) struct RowBits<'b> {
    pub(crate) blocks: &'b [[u64; 16]],
    pub(crate) front: usize,
}

/// Adds the tag of a whole block.
#[inline]
fn push_whole(pool: &mut Vec<[u64; 16]>, column: &mut Column) -> Result<(), AllocError>
    requires { AreTags column.old pool.old.items }
    ensures { OnOk result (AddsTag pool.old.items pool.new.items column.old column.new (λ i. true)) }
{
    column.push(1)?;
    Ok(())
}

/// Adds the tag of a block of these places and of those in their rows, which is whole if it is before `front`.
#[inline]
pub(crate) fn push_joined_tag(
    pool: &mut Vec<[u64; 16]>,
    column: &mut Column,
    k: usize,
    front: usize,
    waits: &[usize],
) -> Result<(), AllocError>
    requires tags { AreTags column.old pool.old.items }
    requires known { All (λ w. w < 1024 * k + length column.old) waits.now }
    requires whole { k < front → (i : ℕ) → i < 1024
        → list_any (λ w. reaches_in k (map (block_of pool.old.items) column.old) w i) waits.now ≡ true }
    ensures { OnOk result (AddsTag pool.old.items pool.new.items column.old column.new
        (λ i. list_any (λ w. reaches_in k (map (block_of pool.old.items) column.old) w i) waits.now)) }
{
    if k < front {
        return push_whole(pool, column);
    }
    let tag = joined_tag(pool, column.as_slice(), k, waits)?;
    column.push(tag)?;
    Ok(())
}

/// Adds the tag of a block with these bits.
#[inline]
fn push_bits_tag(
    pool: &mut Vec<[u64; 16]>,
    column: &mut Column,
    k: usize,
    bits: &[u64; 16],
    rows: &[usize],
) -> Result<(), AllocError>
    requires tags { AreTags column.old pool.old.items }
    requires known { All (λ w. w < 1024 * k + length column.old) rows.now }
    ensures { OnOk result (AddsTag pool.old.items pool.new.items column.old column.new (has_bit bits.now)) }
{
    let tag = tag_of_bits(pool, column.as_slice(), k, rows, *bits)?;
    column.push(tag)?;
    Ok(())
}

/// Adds the blocks of these places and of those in their rows. So many at the front are whole.
pub(crate) fn push_joined(
    pool: &mut Vec<[u64; 16]>,
    columns: &mut Vec<Column>,
    count: usize,
    front: usize,
    waits: &[usize],
) -> Result<(), AllocError>
    requires columns { AreColumns (columns_in pool.old.items columns.old.items) count }
    requires tags { (k : ℕ) → AreTags (slice_index_or columns.old.items k []) pool.old.items }
    requires waits { All (λ w. w < count) waits.now }
    requires whole { (q : ℕ) → q / 1024 < front → list_any
        (λ w. reaches (rows_in (columns_in pool.old.items columns.old.items) count) w q) waits.now ≡ true }
    ensures { OnOk result (AddsTags pool.old.items pool.new.items columns.old.items columns.new.items
        (λ q. list_any (λ w. reaches (rows_in (columns_in pool.old.items columns.old.items) count) w q) waits.now)) }
{
    for k in 0..columns.len() {
        push_joined_tag(pool, &mut columns[k], k, front, waits)?;
    }
    Ok(())
}

/// Adds the blocks of a row, each of which may be that of the row before.
pub(crate) fn push_union(
    pool: &mut Vec<[u64; 16]>,
    columns: &mut Vec<Column>,
    count: usize,
    row: &RowBits<'_>,
) -> Result<(), AllocError>
    requires some { 0 < count }
    requires columns { AreColumns (columns_in pool.old.items columns.old.items) count }
    requires tags { (k : ℕ) → AreTags (slice_index_or columns.old.items k []) pool.old.items }
    requires each { length columns.old.items ≤ length row.now.blocks.now }
    requires whole { (q : ℕ) → q / 1024 < row.now.front → q / 1024 < length row.now.blocks.now
        → bits_have row.now.blocks.now q ≡ true }
    ensures { OnOk result (AddsTags pool.old.items pool.new.items columns.old.items columns.new.items
        (bits_have row.now.blocks.now)) }
{
    let before = [count - 1];
    for k in 0..columns.len() {
        if k < row.front {
            push_whole(pool, &mut columns[k])?;
        } else {
            push_bits_tag(pool, &mut columns[k], k, &row.blocks[k], before.as_slice())?;
        }
    }
    Ok(())
}
