//! Sets of places that are joined from rows.

ghost use Rattle.std.specs.Prelude.{◌≡◌, ◌||◌, ℕ, ◌<◌, ◌/◌, ◌+◌, [], length, false, true, ◌≤◌, All, IfOk, map};
ghost use Rattle.std.specs.List.{slice_index_or};
ghost use Rattle.reach_marks.specs.declared.block.Block.TheVariants.{Empty};
ghost use Rattle.bit_words.specs.Bits.{has_bit};
ghost use Rattle.reach_marks.specs.Blocks.{block_has};
ghost use Rattle.reach_marks.specs.Unions.{ArePassedOn, bits_have, in_some_row};

use crate::rows::Rows;
use bit_words::{all_bits, has, no_bits};
use std::alloc::{AllocError, Global};

/// So many blocks, of which all bits are set in so many at the front, and none in the others.
fn first_blocks(alloc: Global, count: usize, front: usize) -> Result<Vec<[u64; 16]>, AllocError>
    ensures each { IfOk result (λ v. length v.items ≡ count) }
    ensures whole { IfOk result (λ v. (k i : ℕ) → k < front → k < count → i < 1024
        → has_bit (slice_index_or v.items k []) i ≡ true) }
    ensures none { IfOk result (λ v. (k i : ℕ) → front ≤ k → k < count → i < 1024
        → has_bit (slice_index_or v.items k []) i ≡ false) }
{
    let mut blocks = Vec::with_capacity(alloc, count)?;
    for k in 0..count {
        blocks.push(if k < front { all_bits() } else { no_bits() })?;
    }
    Ok(blocks)
}

/// Sets the bit of each place that is in a row. All bits of so many blocks at the front are set already.
fn join_row(blocks: &mut Vec<[u64; 16]>, rows: &Rows, p: usize, front: usize)
    requires p { p < length rows.now }
    requires whole { (k i : ℕ) → k < front → k < length blocks.old.items → i < 1024
        → has_bit (slice_index_or blocks.old.items k []) i ≡ true }
    ensures each { length blocks.new.items ≡ length blocks.old.items }
    ensures joined { (k i : ℕ) → k < length blocks.old.items → i < 1024
        → has_bit (slice_index_or blocks.new.items k []) i ≡ (has_bit (slice_index_or blocks.old.items k []) i
        || block_has (slice_index_or (slice_index_or rows.now p []) k Empty) i) }
{
    for k in front..rows.blocks(p).min(blocks.len()) {
        rows.join_into(p, k, &mut blocks[k]);
    }
}

/// Whether the bit of a place is set.
#[inline]
fn is_set_at(blocks: &[[u64; 16]], place: usize) -> bool
    requires { place / 1024 < length blocks.now }
    ensures { result ≡ bits_have blocks.now place }
{
    has(&blocks[place / 1024], place % 1024)
}

/// How many blocks at the front are whole in the row of one of these places.
pub(crate) fn shared_front(rows: &Rows, places: &[usize]) -> usize
    requires { All (λ p. p < length rows.now) places.now }
    ensures { (q : ℕ) → q / 1024 < result → in_some_row rows.now places.now q ≡ true }
{
    let mut front = 0;
    for p in places {
        let here = rows.front(*p);
        if here > front {
            front = here;
        }
    }
    front
}

/// The places in the rows of these, with all of so many blocks at the front. A place whose own row is in the set already adds nothing, and is passed over.
pub(crate) fn union_of(
    alloc: Global,
    rows: &Rows,
    places: &[usize],
    front: usize,
) -> Result<Vec<[u64; 16]>, AllocError>
    requires known { All (λ p. p < length rows.now) places.now }
    requires passed { ArePassedOn rows.now }
    requires whole { (q : ℕ) → q / 1024 < front → in_some_row rows.now places.now q ≡ true }
    ensures each { IfOk result (λ v. length v.items ≡ length rows.now / 1024 + 1) }
    ensures places { IfOk result (λ v. (q : ℕ) → q / 1024 < length v.items
        → bits_have v.items q ≡ in_some_row rows.now places.now q) }
{
    let mut blocks = first_blocks(alloc, rows.len() / 1024 + 1, front)?;
    // From the back, since what is listed late is mostly behind much of what is listed early.
    for i in (0..places.len()).rev() {
        let p = places[i];
        if p / 1024 < front || !is_set_at(blocks.as_slice(), p) {
            join_row(&mut blocks, rows, p, front);
        }
    }
    Ok(blocks)
}

/// Whether the bit of each of these places is set.
fn marks_in(alloc: Global, blocks: &[[u64; 16]], places: &[usize]) -> Result<Vec<bool>, AllocError>
    requires { All (λ p. p / 1024 < length blocks.now) places.now }
    ensures { IfOk result (λ v. v.items ≡ map (bits_have blocks.now) places.now) }
{
    let mut marks = Vec::with_capacity(alloc, places.len())?;
    for p in places {
        marks.push(is_set_at(blocks, *p))?;
    }
    Ok(marks)
}

/// For each of these places whether it is in the row of one of them.
pub(crate) fn in_rows(alloc: Global, rows: &Rows, places: &[usize]) -> Result<Vec<bool>, AllocError>
    requires known { All (λ p. p < length rows.now) places.now }
    requires passed { ArePassedOn rows.now }
    ensures { IfOk result (λ v. v.items ≡ map (in_some_row rows.now places.now) places.now) }
{
    let front = shared_front(rows, places);
    let blocks = union_of(alloc, rows, places, front)?;
    let marks = marks_in(alloc, blocks.as_slice(), places)?;
    Ok(marks)
}
