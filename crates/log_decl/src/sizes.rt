//! The grid of a log's rectangles, whose size a log of the second version is limited by.

ghost use Rattle.std.specs.Prelude.{◌≡◌, ◌++◌, List, All, true, option_map, IfOk, OnOk};
ghost use Rattle.point_set.specs.declared.rect.Rect.{Rect};
ghost use Rattle.grid.specs.Corners.{cell_count};
ghost use Rattle.grid.specs.Cuts.{grid_of};
ghost use Rattle.log_tables.specs.Views.{Ascends};
ghost use Rattle.log_rules.specs.Tallied.{rects_in};
ghost use Rattle.log_decl.specs.Sizes.{is_plane_log, plane_rects, rects_of_log};

use cell_counts::GridSize;
use grid::Grid;
use log_rules::rects_declared;
use point_set::Rect;
use region_tree::Memory;
use spy_grammar::{Lined, Record};
use std::alloc::Global;

/// Whether the first record is the header of a log of the second version.
pub(crate) fn is_plane_log(records: &[Lined]) -> bool
    ensures { result ≡ is_plane_log records.now }
{
    match records.first() {
        Some(l) => matches!(&l.rec, Record::Header { version } if *version == 2),
        None => false,
    }
}

/// The rectangles of all spaces that a log declares.
fn rects_of_log(alloc: Global, records: &[Lined]) -> Result<Vec<Rect>, Memory>
    requires { All (λ l. Ascends l.rec) records.now }
    ensures { IfOk result (λ rects. rects.items ≡ rects_of_log records.now) }
{
    let mut all = Vec::new(alloc);
    for l in records {
        let rects = rects_declared(alloc, &l.rec)?;
        all.extend_from_slice(rects.as_slice())?;
    }
    Ok(all)
}

/// The grid of the rectangles of all spaces that a log declares, if it is of the second version.
pub(crate) fn whole_grid(alloc: Global, records: &[Lined]) -> Result<Option<Grid>, Memory>
    requires { All (λ l. Ascends l.rec) records.now }
    ensures { IfOk result (λ grid. grid ≡ option_map grid_of (plane_rects records.now)) }
{
    if !is_plane_log(records) {
        return Ok(None);
    }
    let rects = rects_of_log(alloc, records)?;
    let grid = Grid::build(alloc, rects.as_slice())?;
    Ok(Some(grid))
}

/// Adds the rectangles of the space that a record declares, if it declares one.
fn add_rects_of(alloc: Global, size: &mut GridSize, rec: &Record) -> Result<(), Memory>
    requires { Ascends rec.now }
    ensures { OnOk result ((before : List Rect)
        → size.old ≡ grid_of before → size.new ≡ grid_of (before ++ rects_in rec.now)) }
{
    let rects = rects_declared(alloc, rec)?;
    size.add(rects.as_slice())
}

/// How many cells the grid of the rectangles up to a record has, in a log of the second version. The size is that of the rectangles before it, and those of the record are added.
pub(crate) fn cells_with(
    alloc: Global,
    is_plane: bool,
    size: &mut GridSize,
    rec: &Record,
) -> Result<u128, Memory>
    requires { Ascends rec.now }
    ensures { IfOk result (λ cells. (before : List Rect) → is_plane ≡ true → size.old ≡ grid_of before
        → (size.new ≡ grid_of (before ++ rects_in rec.now)) × (cells ≡ cell_count (before ++ rects_in rec.now))) }
{
    if !is_plane {
        return Ok(0);
    }
    add_rects_of(alloc, size, rec)?;
    Ok(size.cells())
}
