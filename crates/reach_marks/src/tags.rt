//! What tags stand for.

ghost use Rattle.std.specs.Prelude.{◌≡◌, ◌||◌, ◌==◌, ℕ, ◌+◌, ◌*◌, ◌/◌, ◌<◌, List, length, map, true, All, IfOk, OnOk, IfSome};
ghost use Rattle.std.specs.List.{list_any};
ghost use Rattle.bit_words.specs.Bits.{has_bit};
ghost use Rattle.reach_marks.specs.Blocks.{block_has, block_in, block_of, is_full_block, is_mixed_block, reaches_in, IsExact};
ghost use Rattle.reach_marks.specs.Columns.{AreTags, Grows};
ghost use Rattle.reach_marks.specs.declared.block.Block.TheVariants.{Mixed};

use crate::block::{Block, block_with};
use bit_words::{all_bits, has, is_empty, join, minus, no_bits, set};
use std::alloc::AllocError;

/// The tag of the row of place `p` in column `k`. The rows before the column have nothing in it.
#[inline]
pub(crate) fn tag_at(tags: &[usize], k: usize, p: usize) -> usize
    requires { p < 1024 * k + length tags.now }
    ensures within { (n : ℕ) → All (λ t. t < n + 2) tags.now → result < n + 2 }
    ensures block { (pool : List (List ℕ))
        → block_of pool result ≡ block_in k (map (block_of pool) tags.now) p }
{
    if p / 1024 < k {
        return 0;
    }
    tags[p - 1024 * k]
}

/// Whether a place of a block is in the set.
#[inline]
pub(crate) fn has_tagged(pool: &[[u64; 16]], tag: usize, i: usize) -> bool
    requires tag { tag < length pool.now + 2 }
    requires i { i < 1024 }
    ensures { result ≡ block_has (block_of pool.now tag) i }
{
    match tag {
        0 => false,
        1 => true,
        _ => has(&pool[tag - 2], i),
    }
}

/// Whether each place of a block whose bit is set is in the set.
pub(crate) fn has_all_tagged(pool: &[[u64; 16]], tag: usize, bits: &[u64; 16]) -> bool
    requires { tag < length pool.now + 2 }
    ensures { result ≡ true → (i : ℕ) → i < 1024 → has_bit bits.now i ≡ true
        → block_has (block_of pool.now tag) i ≡ true }
{
    match tag {
        0 => false,
        1 => true,
        _ => {
            let mut others = *bits;
            minus(&mut others, &pool[tag - 2]);
            is_empty(&others)
        }
    }
}

/// Sets the bit of each place of a block that is in the set.
#[inline]
pub(crate) fn join_tagged(pool: &[[u64; 16]], tag: usize, bits: &mut [u64; 16])
    requires { tag < length pool.now + 2 }
    ensures { (i : ℕ) → i < 1024
        → has_bit bits.new i ≡ (has_bit bits.old i || block_has (block_of pool.now tag) i) }
{
    match tag {
        0 => {}
        1 => *bits = all_bits(),
        _ => join(bits, &pool[tag - 2]),
    }
}

/// The tag of what two blocks have together, if it is known without their bits.
#[inline]
fn either_tag(a: usize, b: usize) -> Option<usize>
    ensures within { IfSome result (λ t. (n : ℕ) → a < n + 2 → b < n + 2 → t < n + 2) }
    ensures both { IfSome result (λ t. (pool : List (List ℕ)) (i : ℕ)
        → block_has (block_of pool t) i ≡ (block_has (block_of pool a) i || block_has (block_of pool b) i)) }
{
    if b == 0 || a == b {
        Some(a)
    } else if a == 0 {
        Some(b)
    } else if a == 1 || b == 1 {
        Some(1)
    } else {
        None
    }
}

/// The tag in column `k` of a row of these places and of those in their rows, if it is known without bits: none of the places lies in the block, and the rows have the same there.
fn common_tag(tags: &[usize], k: usize, waits: &[usize]) -> Option<usize>
    requires { All (λ w. w < 1024 * k + length tags.now) waits.now }
    ensures within { IfSome result (λ t. (n : ℕ) → All (λ t. t < n + 2) tags.now → t < n + 2) }
    ensures places { IfSome result (λ t. (pool : List (List ℕ)) (i : ℕ) → i < 1024
        → block_has (block_of pool t) i
        ≡ list_any (λ w. reaches_in k (map (block_of pool) tags.now) w i) waits.now) }
{
    let mut tag = 0;
    for w in waits {
        if *w / 1024 == k {
            return None;
        }
        let Some(both) = either_tag(tag, tag_at(tags, k, *w)) else {
            return None;
        };
        tag = both;
    }
    Some(tag)
}

/// Sets the bit of a place, if it lies in this block.
#[inline]
fn mark(bits: &mut [u64; 16], w: usize, k: usize)
    ensures { (i : ℕ) → i < 1024 → has_bit bits.new i ≡ (has_bit bits.old i || (w == 1024 * k + i)) }
{
    if w / 1024 == k {
        set(bits, w % 1024);
    }
}

/// The bits in column `k` of these places and of those in their rows.
fn joined(pool: &[[u64; 16]], tags: &[usize], k: usize, waits: &[usize]) -> [u64; 16]
    requires tags { All (λ t. t < length pool.now + 2) tags.now }
    requires known { All (λ w. w < 1024 * k + length tags.now) waits.now }
    ensures { (i : ℕ) → i < 1024
        → has_bit result i ≡ list_any (λ w. reaches_in k (map (block_of pool.now) tags.now) w i) waits.now }
{
    let mut bits = no_bits();
    for w in waits {
        join_tagged(pool, tag_at(tags, k, *w), &mut bits);
        mark(&mut bits, *w, k);
    }
    bits
}

/// The tag of one of these rows that has just these bits in column `k`.
fn tag_with(
    pool: &[[u64; 16]],
    tags: &[usize],
    k: usize,
    waits: &[usize],
    bits: &[u64; 16],
) -> Option<usize>
    requires tags { All (λ t. t < length pool.now + 2) tags.now }
    requires known { All (λ w. w < 1024 * k + length tags.now) waits.now }
    ensures within { IfSome result (λ t. t < length pool.now + 2) }
    ensures same { IfSome result (λ t. block_of pool.now t ≡ Mixed bits.now) }
{
    for w in waits {
        let tag = tag_at(tags, k, *w);
        if tag >= 2 && pool[tag - 2] == *bits {
            return Some(tag);
        }
    }
    None
}

/// The tag of a new block.
fn new_tag(pool: &mut Vec<[u64; 16]>, block: Block) -> Result<usize, AllocError>
    requires exact { IsExact block }
    requires pool { All (λ b. IsExact (Mixed b)) pool.old.items }
    ensures grows { OnOk result (Grows pool.old.items pool.new.items) }
    ensures exact { OnOk result (All (λ b. IsExact (Mixed b)) pool.new.items) }
    ensures within { IfOk result (λ t. t < length pool.new.items + 2) }
    ensures block { IfOk result (λ t. block_of pool.new.items t ≡ block) }
{
    match block {
        Block::Empty => Ok(0),
        Block::Full => Ok(1),
        Block::Mixed(bits) => {
            let tag = pool.len() + 2;
            pool.push(bits)?;
            Ok(tag)
        }
    }
}

/// The tag of the block with these bits in column `k`: that of one of these rows if it has the same.
pub(crate) fn tag_of_bits(
    pool: &mut Vec<[u64; 16]>,
    tags: &[usize],
    k: usize,
    waits: &[usize],
    bits: [u64; 16],
) -> Result<usize, AllocError>
    requires tags { AreTags tags.now pool.old.items }
    requires known { All (λ w. w < 1024 * k + length tags.now) waits.now }
    ensures grows { OnOk result (Grows pool.old.items pool.new.items) }
    ensures exact { OnOk result (All (λ b. IsExact (Mixed b)) pool.new.items) }
    ensures within { IfOk result (λ t. t < length pool.new.items + 2) }
    ensures places { IfOk result (λ t. (i : ℕ) → i < 1024
        → block_has (block_of pool.new.items t) i ≡ has_bit bits i) }
{
    match tag_with(pool.as_slice(), tags, k, waits, &bits) {
        Some(tag) => Ok(tag),
        None => new_tag(pool, block_with(bits)),
    }
}

/// The tag in column `k` of a row of these places and of those in their rows.
pub(crate) fn joined_tag(
    pool: &mut Vec<[u64; 16]>,
    tags: &[usize],
    k: usize,
    waits: &[usize],
) -> Result<usize, AllocError>
    requires tags { AreTags tags.now pool.old.items }
    requires known { All (λ w. w < 1024 * k + length tags.now) waits.now }
    ensures grows { OnOk result (Grows pool.old.items pool.new.items) }
    ensures exact { OnOk result (All (λ b. IsExact (Mixed b)) pool.new.items) }
    ensures within { IfOk result (λ t. t < length pool.new.items + 2) }
    ensures places { IfOk result (λ t. (i : ℕ) → i < 1024 → block_has (block_of pool.new.items t) i
        ≡ list_any (λ w. reaches_in k (map (block_of pool.old.items) tags.now) w i) waits.now) }
{
    match common_tag(tags, k, waits) {
        Some(tag) => Ok(tag),
        None => {
            let bits = joined(pool.as_slice(), tags, k, waits);
            let tag = tag_of_bits(pool, tags, k, waits, bits)?;
            Ok(tag)
        }
    }
}

/// Whether a tag is that of a whole block.
#[inline]
pub(crate) fn is_full_tag(tag: usize) -> bool
    ensures { (pool : List (List ℕ)) → result ≡ is_full_block (block_of pool tag) }
{
    match tag {
        1 => true,
        _ => false,
    }
}

/// Whether a tag is that of a block with bits.
#[inline]
pub(crate) fn is_mixed_tag(tag: usize) -> bool
    ensures { (pool : List (List ℕ)) → result ≡ is_mixed_block (block_of pool tag) }
{
    match tag {
        0 => false,
        1 => false,
        _ => true,
    }
}
