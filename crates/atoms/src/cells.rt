//! The atoms of a log's rectangles.

ghost use Rattle.std.specs.Prelude.{◌≡◌, ◌+◌, ◌<◌, ◌≤◌, map, length, slice_get, IfOk};
ghost use Rattle.std.specs.List.Sorted.{IsPartitionPoint, IsStrictlyIncreasing};
ghost use Rattle.log_laws.specs.Drawn.{AreDrawn};
ghost use Rattle.vocabulary.specs.Prelude.{Tables};
ghost use Rattle.point_laws.specs.Alike.{AreFirsts};
ghost use Rattle.atoms.specs.Atoms.{AreAtomsOf, IsAtomAt, IsCellOf, IsPlaceOf, atoms_of, cell_rect, first_points};

use covered_cells::{GridCell, cell_at, covered_cells};
use grid::Grid;
use memory::Memory;
use point_set::Rect;
use std::alloc::Global;
use std::marker::Model;

/// The cells of the grid of a log's rectangles that have points of its spaces. Contracts see the rectangle of each, column by column and then row by row.
#[derive(Drop)]
pub struct Atoms {
    grid: Grid,
    cells: Vec<GridCell>,
    firsts: Vec<u64>,
}

impl Model for Atoms {
    ghost use Rattle.std.specs.Prelude.{List, map};
    ghost use Rattle.point_set.specs.declared.rect.Rect.{Rect};
    ghost use Rattle.atoms.specs.Atoms.{AreKept, cell_rect};

    ghost Value = { List Rect };

    ghost view = { λ a. map (cell_rect a.grid) a.cells.items };

    ghost invariant = { λ a. AreKept a.grid a.cells.items a.firsts.items };
}

/// The first point of each cell.
fn firsts_of(alloc: Global, cells: &[GridCell]) -> Result<Vec<u64>, Memory>
    ensures { IfOk result (λ firsts. firsts.items ≡ map (λ c. c.first) cells.now) }
{
    let mut firsts = Vec::with_capacity(alloc, cells.len())?;
    for cell in cells {
        firsts.push(cell.first)?;
    }
    Ok(firsts)
}

/// What the column and the row of a cell have in common.
fn cell_rect(grid: &Grid, cell: &GridCell) -> Rect
    requires column { cell.now.column + 1 < length grid.now.xs }
    requires row { cell.now.row + 1 < length grid.now.ys }
    ensures { result ≡ cell_rect grid.now cell.now }
{
    match (grid.column(cell.column), grid.row(cell.row)) {
        (Some((x0, x1)), Some((y0, y1))) => Rect { x0, x1, y0, y1 },
        _ => unreachable!(),
    }
}

/// The cell that has a point, or `None` where no cell of the grid has it. Two binary searches.
fn cell_of(grid: &Grid, p: u64) -> Option<GridCell>
    ensures { IsCellOf grid.now p result }
{
    let column = grid.column_of((p / 4_294_967_296) as u32)?;
    let row = grid.row_of((p % 4_294_967_296) as u32)?;
    Some(cell_at(grid, column, row))
}

/// How many numbers of a list that ascends are below one, by a binary search.
fn count_below(numbers: &[u64], n: u64) -> usize
    requires { IsStrictlyIncreasing numbers.now }
    ensures parts { IsPartitionPoint (λ m. m < n) (λ m. n ≤ m) numbers.now result }
    ensures within { result ≤ length numbers.now }
{
    numbers.partition_point(|m| *m < n)
}

/// The place of a number in a list that ascends, or `None` where it is not listed.
fn place_of(numbers: &[u64], n: u64) -> Option<usize>
    requires { IsStrictlyIncreasing numbers.now }
    ensures { IsPlaceOf numbers.now n result }
{
    let place = count_below(numbers, n);
    if place == numbers.len() {
        return None;
    }
    if numbers[place] != n {
        return None;
    }
    Some(place)
}

impl Atoms {
    /// The atoms of the rectangles of a log. The time goes by the rectangles and the cells of their grid, and not by the points.
    pub fn build(alloc: Global, rects: &[Rect]) -> Result<Atoms, Memory>
        ensures atoms { IfOk result (λ atoms. atoms ≡ atoms_of rects.now) }
        ensures are { IfOk result (λ atoms. (t : Tables) → rects.now ≡ t.rects → AreDrawn t
            → AreAtomsOf t atoms) }
        ensures firsts { IfOk result (λ atoms. (t : Tables) → rects.now ≡ t.rects → AreDrawn t
            → AreFirsts t (first_points atoms)) }
    {
        let grid = Grid::build(alloc, rects)?;
        let cells = covered_cells(alloc, &grid, rects)?;
        let firsts = firsts_of(alloc, cells.as_slice())?;
        Ok(Atoms {
            grid,
            cells,
            firsts,
        })
    }

    /// How many atoms there are.
    pub fn len(&self) -> usize
        ensures { result ≡ length self.now }
    {
        self.cells.len()
    }

    /// The place of the atom that has a point, or `None` where no atom has it: then no declared space has it. Three binary searches.
    pub fn atom_of(&self, p: u64) -> Option<usize>
        ensures { IsAtomAt self.now p result }
    {
        let cell = cell_of(&self.grid, p)?;
        place_of(self.firsts.as_slice(), cell.first)
    }

    /// The rectangle of an atom, by its place, or `None` past the last atom.
    pub fn rect(&self, k: usize) -> Option<Rect>
        ensures { result ≡ slice_get self.now k }
    {
        let cell = self.cells.get(k)?;
        Some(cell_rect(&self.grid, cell))
    }

    /// The first points of the atoms, in ascending order.
    pub fn firsts(&self) -> &[u64]
        ensures firsts { result.now ≡ first_points self.now }
        ensures ascend { IsStrictlyIncreasing result.now }
    {
        self.firsts.as_slice()
    }
}
