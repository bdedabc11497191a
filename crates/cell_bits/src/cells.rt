//! The cells of a grid that some points touch.

ghost use Rattle.std.specs.Prelude.{◌≡◌, ◌<◌, ◌≤◌, ◌*◌, ◌+◌, ◌^◌, ◌↔◌, ◌⊎◌, ⊤, ℕ, false, true, length, All, List, MatchOption, None, IfOk};
ghost use Rattle.point_set.specs.declared.rect.Rect.{Rect};
ghost use Rattle.point_set.specs.Rects.{AreSmall, rect_points};
ghost use Rattle.grid.specs.Cuts.{grid_of, span_count};
ghost use Rattle.bit_words.specs.Bits.{has_bit};
ghost use Rattle.cell_bits.specs.Bits.{AreBitsOf, HasAll, HasFew, HasNone, IsInBlock, IsOnGrid, TouchesRect, TouchesSome};

use crate::words::{are_within, have_common, set_between};
use grid::Grid;
use point_set::Rect;
use std::alloc::{AllocError, Global};

/// How many cells a grid has at most for which bits are kept.
pub const MOST_CELLS: u128 = 1_048_576;

/// Which cells of a grid some points touch, a bit for each cell, column by column.
#[derive(Drop)]
pub struct CellBits {
    words: Vec<u64>,
}

/// Cells from one column up to another, and from one row to another.
#[derive(Clone, Copy)]
struct Block {
    left: usize,
    end: usize,
    low: usize,
    high: usize,
}

/// Sets the bits of the cells of a block, in a grid of so many rows.
fn set_block(words: &mut [u64], rows: usize, block: Block)
    requires columns { block.left ≤ block.end }
    requires order { block.low ≤ block.high }
    requires rows { block.high < rows }
    requires within { block.end * rows ≤ 64 * length words.old }
    requires few { block.end * rows < 2 ^ 32 }
    ensures words { length words.new ≡ length words.old }
    ensures bits { (n : ℕ) → (has_bit words.new n ≡ true)
        ↔ ((has_bit words.old n ≡ true) ⊎ IsInBlock rows block.left block.end block.low block.high n) }
{
    for k in block.left..block.end {
        set_between(words, k * rows + block.low, k * rows + block.high + 1);
    }
}

/// Sets the bits of the cells that a rectangle touches. It answers `false` only where the rectangle has no point, or an end of it is in no cell.
fn set_rect(words: &mut [u64], grid: &Grid, rect: Rect) -> bool
    requires within { span_count grid.now.xs * span_count grid.now.ys ≤ 64 * length words.old }
    requires few { span_count grid.now.xs * span_count grid.now.ys < 2 ^ 32 }
    ensures words { length words.new ≡ length words.old }
    ensures bits { result ≡ true → (all : List Rect) → grid.now ≡ grid_of all → (n : ℕ)
        → (has_bit words.new n ≡ true) ↔ ((has_bit words.old n ≡ true) ⊎ TouchesRect grid.now rect n) }
    ensures off { result ≡ false → (all : List Rect) → grid.now ≡ grid_of all → IsOnGrid grid.now rect → ⊥ }
{
    let (Some(left), Some(right)) = (grid.column_of(rect.x0), grid.column_of(rect.x1)) else {
        return false;
    };
    let (Some(low), Some(high)) = (grid.row_of(rect.y0), grid.row_of(rect.y1)) else {
        return false;
    };
    if rect.x0 > rect.x1 || rect.y0 > rect.y1 || left > right || low > high {
        return false;
    }
    let block = Block {
        left,
        end: right + 1,
        low,
        high,
    };
    set_block(words, grid.rows(), block);
    true
}

/// Sets the bits of the cells that some rectangles touch. It answers `false` only where one of them has no point, or an end in no cell.
fn set_rects(words: &mut [u64], grid: &Grid, rects: &[Rect]) -> bool
    requires within { span_count grid.now.xs * span_count grid.now.ys ≤ 64 * length words.old }
    requires few { span_count grid.now.xs * span_count grid.now.ys < 2 ^ 32 }
    ensures words { length words.new ≡ length words.old }
    ensures bits { result ≡ true → (all : List Rect) → grid.now ≡ grid_of all → (n : ℕ)
        → (has_bit words.new n ≡ true)
        ↔ ((has_bit words.old n ≡ true) ⊎ TouchesSome grid.now rects.now (length rects.now) n) }
    ensures off { result ≡ false → (all : List Rect) → grid.now ≡ grid_of all
        → All (IsOnGrid grid.now) rects.now → ⊥ }
{
    for i in 0..rects.len() {
        if !set_rect(words, grid, rects[i]) {
            return false;
        }
    }
    true
}

impl CellBits {
    /// The cells that some rectangles touch. It answers `None` only for a grid of more than `MOST_CELLS` cells, or where a rectangle has no point or goes beyond the grid.
    pub fn of(alloc: Global, grid: &Grid, rects: &[Rect]) -> Result<Option<CellBits>, AllocError>
        ensures bits { IfOk result (λ found. (all : List Rect) → grid.now ≡ grid_of all → AreSmall rects.now
            → MatchOption found ⊤ (λ bits. AreBitsOf grid.now (rect_points rects.now) bits)) }
        ensures none { IfOk result (λ found. (all : List Rect) → grid.now ≡ grid_of all → found ≡ None
            → HasFew grid.now → All (IsOnGrid grid.now) rects.now → ⊥) }
    {
        let cells = grid.columns() as u128 * grid.rows() as u128;
        if cells > MOST_CELLS {
            return Ok(None);
        }
        let mut words = vec![in alloc; 0u64; (cells / 64 + 1) as usize]?;
        if !set_rects(words.as_mut_slice(), grid, rects) {
            return Ok(None);
        }
        Ok(Some(CellBits { words }))
    }

    /// Whether others have each of these bits.
    pub fn within(&self, other: &CellBits) -> bool
        ensures { (result ≡ true) ↔ HasAll other.now self.now }
    {
        are_within(self.words.as_slice(), other.words.as_slice())
    }

    /// Whether some of these bits is one of others too.
    pub fn meets(&self, other: &CellBits) -> bool
        ensures { (result ≡ false) ↔ HasNone other.now self.now }
    {
        have_common(self.words.as_slice(), other.words.as_slice())
    }
}
