//! Whether blocks clash, in a time that goes by how many there are, and not by their columns and rows.

ghost use Rattle.std.specs.Prelude.{◌≤◌, ◌↔◌, Contains, IfOk, IsTrue};
ghost use Rattle.std.specs.List.Sorted.{IsPermutation};
ghost use Rattle.launch_claims.specs.declared.block.Block.{Block};
ghost use Rattle.launch_claims.specs.Blocks.{AreBlocksInOrder, AreIn, HasBlockClash, HasClashIn};

use crate::block::Block;
use crate::node::{has_wide_clash, left_half, right_half};
use memory::Memory;
use std::alloc::Global;

/// Whether some two blocks, in order, clash in one of these columns. It halves the columns: in each half are only those that do not have all columns.
fn some_clash(alloc: Global, blocks: &[Block], lo: u32, hi: u32) -> Result<bool, Memory>
    requires range { lo ≤ hi }
    requires order { AreBlocksInOrder blocks.now }
    requires inside { AreIn lo hi blocks.now }
    ensures { IfOk result (λ told. IsTrue told ↔ HasClashIn lo hi blocks.now) }
{
    if blocks.len() < 2 {
        return Ok(false);
    }
    if has_wide_clash(alloc, blocks, lo, hi)? {
        return Ok(true);
    }
    if hi <= lo {
        return Ok(false);
    }
    let middle = lo + (hi - lo) / 2;
    let clash = {
        let left = left_half(alloc, blocks, lo, hi, middle)?;
        some_clash(alloc, left.as_slice(), lo, middle)?
    };
    if clash {
        return Ok(true);
    }
    let right = right_half(alloc, blocks, lo, hi, middle)?;
    some_clash(alloc, right.as_slice(), middle + 1, hi)
}

/// Puts blocks in the order of the trees, fields and first rows of their claims.
fn sort(blocks: &mut Vec<Block>)
    ensures blocks { IsPermutation blocks.old.items blocks.new.items }
    ensures order { AreBlocksInOrder blocks.new.items }
{
    blocks.sort_unstable_by_key(|block| (block.claim.tree, block.claim.field, block.claim.first));
}

/// The first column of all blocks, where there is one.
fn first_column(blocks: &[Block]) -> u32
    ensures { (b : Block) → Contains blocks.now b → result ≤ b.x0 }
{
    let mut first = u32::MAX;
    for block in blocks {
        first = block.x0.min(first);
    }
    first
}

/// The last column of all blocks.
fn last_column(blocks: &[Block]) -> u32
    ensures { (b : Block) → Contains blocks.now b → b.x1 ≤ result }
{
    let mut last = 0;
    for block in blocks {
        last = block.x1.max(last);
    }
    last
}

/// Whether some two blocks clash, in whatever order they come. Each has a column.
///
/// Each block is looked at in at most two nodes of each level, of which there are 33 at most.
pub(crate) fn have_clash(alloc: Global, blocks: Vec<Block>) -> Result<bool, Memory>
    requires { (b : Block) → Contains blocks.items b → b.x0 ≤ b.x1 }
    ensures { IfOk result (λ told. IsTrue told ↔ HasBlockClash blocks.items) }
{
    let mut sorted = blocks;
    sort(&mut sorted);
    let lo = first_column(sorted.as_slice());
    let hi = last_column(sorted.as_slice());
    if hi < lo {
        return Ok(false);
    }
    some_clash(alloc, sorted.as_slice(), lo, hi)
}
