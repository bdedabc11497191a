//! Marks at the corners of blocks, by which it is told how many blocks have a cell.

ghost use Rattle.std.specs.Prelude.{◌≡◌, ◌++◌, IfOk, OnOk};
ghost use Rattle.std.specs.List.Sorted.{IsNonDecreasingBy, IsPermutation};
ghost use Rattle.grid.specs.Cuts.{grid_of};
ghost use Rattle.covered_cells.specs.Marks.{AreMarksOf, HaveSmallEnds, minus_of, plus_of};

use crate::blocks::{Block, block_of};
use grid::Grid;
use memory::Memory;
use point_set::Rect;
use std::alloc::Global;

/// A corner of a block of cells.
#[derive(Clone, Copy)]
pub struct Mark {
    pub column: usize,
    pub row: usize,
}

/// The marks that count for blocks, and those that count against them.
#[derive(Drop)]
pub(crate) struct BlockMarks {
    pub(crate) plus: Vec<Mark>,
    pub(crate) minus: Vec<Mark>,
}

/// Adds the four marks of a block.
fn push_marks(marks: &mut BlockMarks, block: Block) -> Result<(), Memory>
    ensures plus { OnOk result (marks.new.plus.items ≡ marks.old.plus.items ++ plus_of block) }
    ensures minus { OnOk result (marks.new.minus.items ≡ marks.old.minus.items ++ minus_of block) }
{
    marks.plus.push(Mark {
        column: block.column,
        row: block.row,
    })?;
    marks.plus.push(Mark {
        column: block.column_end,
        row: block.row_end,
    })?;
    marks.minus.push(Mark {
        column: block.column,
        row: block.row_end,
    })?;
    marks.minus.push(Mark {
        column: block.column_end,
        row: block.row,
    })?;
    Ok(())
}

/// The marks of rectangles' blocks, rectangle by rectangle.
fn unsorted_marks(alloc: Global, grid: &Grid, rects: &[Rect]) -> Result<BlockMarks, Memory>
    requires grid { grid.now ≡ grid_of rects.now }
    ensures marks { IfOk result (λ marks. AreMarksOf grid.now rects.now marks.plus.items marks.minus.items) }
    ensures small { IfOk result (λ _. HaveSmallEnds rects.now) }
{
    let mut marks = BlockMarks {
        plus: Vec::new(alloc),
        minus: Vec::new(alloc),
    };
    for rect in rects {
        push_marks(&mut marks, block_of(grid, *rect))?;
    }
    Ok(marks)
}

/// Sorts marks by their columns.
fn sort_by_column(marks: &mut Vec<Mark>)
    ensures permutation { IsPermutation marks.old.items marks.new.items }
    ensures sorted { IsNonDecreasingBy (λ m. m.column) marks.new.items }
{
    marks.sort_unstable_by_key(|mark| mark.column);
}

/// The marks of rectangles' blocks, by their columns.
pub(crate) fn marks_of(alloc: Global, grid: &Grid, rects: &[Rect]) -> Result<BlockMarks, Memory>
    requires grid { grid.now ≡ grid_of rects.now }
    ensures marks { IfOk result (λ marks. AreMarksOf grid.now rects.now marks.plus.items marks.minus.items) }
    ensures plus { IfOk result (λ marks. IsNonDecreasingBy (λ m. m.column) marks.plus.items) }
    ensures minus { IfOk result (λ marks. IsNonDecreasingBy (λ m. m.column) marks.minus.items) }
    ensures small { IfOk result (λ _. HaveSmallEnds rects.now) }
{
    let mut marks = unsorted_marks(alloc, grid, rects)?;
    sort_by_column(&mut marks.plus);
    sort_by_column(&mut marks.minus);
    Ok(marks)
}
