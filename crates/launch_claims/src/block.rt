//! Blocks of columns and rows that tasks claim.

ghost use Rattle.std.specs.Prelude.{◌≡◌};
ghost use Rattle.launch_claims.specs.Blocks.{goes_left, goes_right, spans};

use crate::claim::Claim;

/// A claim on the same rows of some columns. The first and the last point of the claim are the rows.
#[derive(Clone, Copy)]
pub(crate) struct Block {
    pub claim: Claim,
    /// The first and the last column.
    pub x0: u32,
    pub x1: u32,
}

/// Whether a block has all of some columns.
pub(crate) fn spans(block: &Block, lo: u32, hi: u32) -> bool
    ensures { result ≡ spans lo hi block.now }
{
    block.x0 <= lo && hi <= block.x1
}

/// Whether a block has some of the columns alone, and one up to the middle.
pub(crate) fn goes_left(block: &Block, lo: u32, hi: u32, middle: u32) -> bool
    ensures { result ≡ goes_left lo hi middle block.now }
{
    !spans(block, lo, hi) && block.x0 <= middle
}

/// Whether a block has some of the columns alone, and one behind the middle.
pub(crate) fn goes_right(block: &Block, lo: u32, hi: u32, middle: u32) -> bool
    ensures { result ≡ goes_right lo hi middle block.now }
{
    !spans(block, lo, hi) && middle < block.x1
}
