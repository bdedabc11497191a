//! The blocks that have one of some columns, in order.

ghost use Rattle.std.specs.Prelude.{◌≡◌, ◌↔◌, ◌++◌, ◌∷◌, [], List, cond, filter, IfOk, IsTrue, OnOk};
ghost use Rattle.std.specs.List.{Any};
ghost use Rattle.launch_claims.specs.declared.block.Block.{Block};
ghost use Rattle.launch_claims.specs.Blocks.{AreBlocksInOrder, ComeBefore, HasWideClash, IsSeen, WideClash, goes_left, goes_right, spans};

use crate::block::{Block, goes_left, goes_right, spans};
use crate::kept::{keep, rows_clash};
use memory::Memory;
use std::alloc::Global;

/// What is kept of the blocks that were seen so far: of all, and of those that have all columns.
#[derive(Drop)]
pub(crate) struct Seen {
    pub any: Vec<Block>,
    pub wide: Vec<Block>,
}

/// Whether the next block clashes with one that was seen, where one of the two has all columns.
fn clashes_next(seen: &Seen, block: &Block, lo: u32, hi: u32) -> bool
    ensures { (blocks : List Block) → IsSeen lo hi seen.now blocks → ComeBefore blocks block.now
        → IsTrue result ↔ WideClash lo hi blocks block.now }
{
    if spans(block, lo, hi) {
        rows_clash(seen.any.as_slice(), block)
    } else {
        rows_clash(seen.wide.as_slice(), block)
    }
}

/// What is kept with one block more.
fn with_next(alloc: Global, seen: Seen, block: &Block, lo: u32, hi: u32) -> Result<Seen, Memory>
    ensures { IfOk result (λ more. (blocks : List Block) → IsSeen lo hi seen blocks → ComeBefore blocks block.now
        → ¬ WideClash lo hi blocks block.now → IsSeen lo hi more (blocks ++ block.now ∷ [])) }
{
    let any = keep(alloc, seen.any, block)?;
    if spans(block, lo, hi) {
        let wide = keep(alloc, seen.wide, block)?;
        Ok(Seen { any, wide })
    } else {
        Ok(Seen {
            any,
            wide: seen.wide,
        })
    }
}

/// Whether some block has all of some columns.
fn some_spans(blocks: &[Block], lo: u32, hi: u32) -> bool
    ensures { IsTrue result ↔ Any (λ b. IsTrue (spans lo hi b)) blocks.now }
{
    blocks.iter().any(|block| spans(block, lo, hi))
}

/// Whether some two blocks clash, of which one has all of these columns. One pass, if there is such a block.
pub(crate) fn has_wide_clash(
    alloc: Global,
    blocks: &[Block],
    lo: u32,
    hi: u32,
) -> Result<bool, Memory>
    requires { AreBlocksInOrder blocks.now }
    ensures { IfOk result (λ told. IsTrue told ↔ HasWideClash lo hi blocks.now) }
{
    if !some_spans(blocks, lo, hi) {
        return Ok(false);
    }
    let mut seen = Seen {
        any: Vec::new(alloc),
        wide: Vec::new(alloc),
    };
    for block in blocks {
        if clashes_next(&seen, block, lo, hi) {
            return Ok(true);
        }
        seen = with_next(alloc, seen, block, lo, hi)?;
    }
    Ok(false)
}

/// Adds a block where that is asked.
pub(crate) fn push_if(blocks: &mut Vec<Block>, block: Block, asked: bool) -> Result<(), Memory>
    ensures { OnOk result (blocks.new.items ≡ blocks.old.items ++ cond asked (block ∷ []) []) }
{
    if asked {
        blocks.push(block)?;
    }
    Ok(())
}

/// The blocks of the left half.
pub(crate) fn left_half(
    alloc: Global,
    blocks: &[Block],
    lo: u32,
    hi: u32,
    middle: u32,
) -> Result<Vec<Block>, Memory>
    ensures { IfOk result (λ half. half.items ≡ filter (goes_left lo hi middle) blocks.now) }
{
    let mut half = Vec::new(alloc);
    for block in blocks {
        push_if(&mut half, *block, goes_left(block, lo, hi, middle))?;
    }
    Ok(half)
}

/// The blocks of the right half.
pub(crate) fn right_half(
    alloc: Global,
    blocks: &[Block],
    lo: u32,
    hi: u32,
    middle: u32,
) -> Result<Vec<Block>, Memory>
    ensures { IfOk result (λ half. half.items ≡ filter (goes_right lo hi middle) blocks.now) }
{
    let mut half = Vec::new(alloc);
    for block in blocks {
        push_if(&mut half, *block, goes_right(block, lo, hi, middle))?;
    }
    Ok(half)
}
