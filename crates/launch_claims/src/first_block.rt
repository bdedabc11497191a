//! The first record at which blocks clash.

ghost use Rattle.std.specs.Prelude.{◌≡◌, ◌≤◌, ◌↔◌, nat_le, Contains, IfOk, IsTrue, Some};
ghost use Rattle.launch_claims.specs.declared.block.Block.{Block};
ghost use Rattle.launch_claims.specs.Interference.{IsLeast};
ghost use Rattle.launch_claims.specs.Blocks.{HasClashUpTo, asked_up_to};

use crate::block::Block;
use crate::meeting::have_clash;
use crate::node::push_if;
use memory::Memory;
use std::alloc::Global;

/// Whether a record up to a number asks for a block.
fn is_asked(block: &Block, number: u32) -> bool
    ensures { result ≡ nat_le block.now.claim.record number }
{
    block.claim.record <= number
}

/// The blocks that records up to a number ask for.
fn asked_up_to(alloc: Global, blocks: &[Block], number: u32) -> Result<Vec<Block>, Memory>
    ensures { IfOk result (λ asked. asked.items ≡ asked_up_to number blocks.now) }
{
    let mut asked = Vec::new(alloc);
    for block in blocks {
        push_if(&mut asked, *block, is_asked(block, number))?;
    }
    Ok(asked)
}

/// Whether some two blocks clash that records up to a number ask for.
fn has_clash_up_to(alloc: Global, blocks: &[Block], number: u32) -> Result<bool, Memory>
    requires { (b : Block) → Contains blocks.now b → b.x0 ≤ b.x1 }
    ensures { IfOk result (λ told. IsTrue told ↔ HasClashUpTo blocks.now number) }
{
    let asked = asked_up_to(alloc, blocks, number)?;
    have_clash(alloc, asked)
}

/// The highest number of a record that asks for a block.
fn highest_record(blocks: &[Block]) -> u32
    ensures { (b : Block) → Contains blocks.now b → b.claim.record ≤ result }
{
    let mut highest = 0;
    for block in blocks {
        highest = block.claim.record.max(highest);
    }
    highest
}

/// The least number, of those up to `highest`, such that some two blocks clash that records up to it ask for. It is sought by halves.
fn first_up_to(alloc: Global, blocks: &[Block], highest: u32) -> Result<u32, Memory>
    requires wide { (b : Block) → Contains blocks.now b → b.x0 ≤ b.x1 }
    requires clash { HasClashUpTo blocks.now highest }
    ensures { IfOk result (λ number. IsLeast (HasClashUpTo blocks.now) (Some number)) }
{
    let mut low = 0;
    let mut high = highest;
    while low < high {
        let middle = low + (high - low) / 2;
        if has_clash_up_to(alloc, blocks, middle)? {
            high = middle;
        } else {
            low = middle + 1;
        }
    }
    Ok(low)
}

/// The first record at which blocks clash, in whatever order they come. Each has a column.
pub(crate) fn first_block_clash(alloc: Global, blocks: &[Block]) -> Result<Option<u32>, Memory>
    requires { (b : Block) → Contains blocks.now b → b.x0 ≤ b.x1 }
    ensures { IfOk result (IsLeast (HasClashUpTo blocks.now)) }
{
    let highest = highest_record(blocks);
    if !has_clash_up_to(alloc, blocks, highest)? {
        return Ok(None);
    }
    let number = first_up_to(alloc, blocks, highest)?;
    Ok(Some(number))
}
