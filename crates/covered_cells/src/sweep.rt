//! One column of the grid after the other.

ghost use Rattle.std.specs.Prelude.{◌≡◌, ◌+◌, ◌<◌, ◌≤◌, ◌++◌, ◌==◌, ◌^◌, ℕ, List, get_or, length, IfOk, OnOk};
ghost use Rattle.std.specs.List.Sorted.{IsNonDecreasingBy, IsPermutation};
ghost use Rattle.grid.specs.Cuts.{span_count};
ghost use Rattle.covered_cells.specs.declared.blocks.Block.{Block};
ghost use Rattle.covered_cells.specs.Marks.{AreBlocks, AreCounted, AreInRows, StandBefore, cells_before, cells_below, minus_marks, plus_marks, one_if};

use crate::grid_cell::{GridCell, push_if};
use crate::marks::Mark;
use grid::Grid;
use memory::Memory;
use std::alloc::Global;

/// Adds one to the counter of a row, if there is one.
fn count_row(counts: &mut Vec<usize>, row: usize)
    requires { row < length counts.old.items → get_or counts.old.items row 0 + 1 < 2 ^ 64 }
    ensures length { length counts.new.items ≡ length counts.old.items }
    ensures counts { (l : ℕ) → l < length counts.old.items
        → get_or counts.new.items l 0 ≡ get_or counts.old.items l 0 + one_if (row == l) }
{
    if row < counts.len() {
        counts[row] += 1;
    }
}

/// Counts the marks from place `from` on that stand in column `k` or left of it, each in its row, where those before it are counted. Answers the place of the first that stands right of it.
pub(crate) fn advance(marks: &[Mark], from: usize, k: usize, counts: &mut Vec<usize>) -> usize
    requires sorted { IsNonDecreasingBy (λ m. m.column) marks.now }
    requires from { from ≤ length marks.now }
    requires before { StandBefore marks.now from k }
    requires counted { AreCounted marks.now from counts.old.items }
    ensures length { length counts.new.items ≡ length counts.old.items }
    ensures within { result ≤ length marks.now }
    ensures before { StandBefore marks.now result (k + 1) }
    ensures counted { AreCounted marks.now result counts.new.items }
    ensures in_rows { AreInRows k marks.now counts.new.items }
{
    let mut next = from;
    while next < marks.len() && marks[next].column <= k {
        count_row(counts, marks[next].row);
        next += 1;
    }
    next
}

/// Adds the cells of a column that some block has, by the counts of the marks in columns up to it: those for the blocks, and those against them.
pub(crate) fn push_column(
    cells: &mut Vec<GridCell>,
    grid: &Grid,
    k: usize,
    plus: &[usize],
    minus: &[usize],
) -> Result<(), Memory>
    requires column { k + 1 < length grid.now.xs }
    requires plus { length plus.now ≡ span_count grid.now.ys }
    requires minus { length minus.now ≡ span_count grid.now.ys }
    ensures { OnOk result ((blocks : List Block) → AreBlocks blocks
        → AreInRows k (plus_marks blocks) plus.now → AreInRows k (minus_marks blocks) minus.now
        → cells.new.items ≡ cells.old.items ++ cells_below grid.now blocks k (span_count grid.now.ys)) }
{
    let mut all = 0u128;
    let mut off = 0u128;
    for l in 0..plus.len() {
        all += plus[l] as u128;
        off += minus[l] as u128;
        push_if(cells, grid, k, l, off < all)?;
    }
    Ok(())
}

/// A counter for each row, at zero.
fn zeros(alloc: Global, rows: usize) -> Result<Vec<usize>, Memory>
    ensures length { IfOk result (λ counts. length counts.items ≡ rows) }
    ensures zero { IfOk result (λ counts. (l : ℕ) → get_or counts.items l 0 ≡ 0) }
{
    let counts = vec![in alloc; 0; rows]?;
    Ok(counts)
}

/// The cells that some block has, column by column, by the marks for the blocks and those against them. Takes a step a cell of the grid, and one a mark.
pub(crate) fn swept_cells(
    alloc: Global,
    grid: &Grid,
    plus: &[Mark],
    minus: &[Mark],
) -> Result<Vec<GridCell>, Memory>
    requires plus { IsNonDecreasingBy (λ m. m.column) plus.now }
    requires minus { IsNonDecreasingBy (λ m. m.column) minus.now }
    ensures { IfOk result (λ cells. (blocks : List Block) → AreBlocks blocks
        → IsPermutation (plus_marks blocks) plus.now → IsPermutation (minus_marks blocks) minus.now
        → cells.items ≡ cells_before grid.now blocks (span_count grid.now.xs)) }
{
    let mut plus_counts = zeros(alloc, grid.rows())?;
    let mut minus_counts = zeros(alloc, grid.rows())?;
    let mut next_plus = 0;
    let mut next_minus = 0;
    let mut cells = Vec::new(alloc);
    for k in 0..grid.columns() {
        next_plus = advance(plus, next_plus, k, &mut plus_counts);
        next_minus = advance(minus, next_minus, k, &mut minus_counts);
        push_column(
            &mut cells,
            grid,
            k,
            plus_counts.as_slice(),
            minus_counts.as_slice(),
        )?;
    }
    Ok(cells)
}
