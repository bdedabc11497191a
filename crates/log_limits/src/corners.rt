//! How many cells of a log's grid begin in each space.

ghost use Rattle.std.specs.Prelude.{◌≡◌, List, length, map, IfOk};
ghost use Rattle.point_set.specs.declared.rect.Rect.{Rect};
ghost use Rattle.grid.specs.Corners.{corners_in};
ghost use Rattle.grid.specs.Cuts.{grid_of};
ghost use Rattle.vocabulary.specs.Prelude.{Tables};
ghost use Rattle.log_tables.specs.Views.{space_seen};
ghost use Rattle.log_limits.specs.Corners.{corner_total, corners_of, space_corners};

use arena_sets::SetOfRects;
use cell_counts::{corner_count, corner_points};
use grid::Grid;
use log_tables::{ById, KeyBy, LogTables, Rows, Space};
use memory::Memory;
use point_set::PointSet;
use std::alloc::Global;
use std::marker::Model;

/// A space, by its id, and how many cells begin in it.
#[derive(Clone, Copy)]
pub(crate) struct SpaceCorners {
    pub(crate) id: u32,
    pub(crate) count: u128,
}

impl KeyBy<SpaceCorners> for ById {
    type K = u32;

    ghost key_of = { λ s. s.id };

    fn key(row: &SpaceCorners) -> u32 {
        row.id
    }
}

/// The grid of a log, and how many of its cells begin in each space. Contracts see the cuts of the grid, and a list with an entry for each space in the order of the lines.
#[derive(Drop)]
pub struct Corners {
    grid: Grid,
    rows: Rows<ById, SpaceCorners>,
}

impl Model for Corners {
    ghost use Rattle.log_limits.specs.Corners.{GridCorners};

    ghost Value = { GridCorners };

    ghost view = { λ c. record { grid = c.grid; counts = c.rows } };
}

/// How many cells of a grid begin in a set.
fn corners_in<P: SetOfRects>(alloc: Global, grid: &Grid, set: &P) -> Result<u128, Memory>
    ensures { IfOk result (λ count. (all : List Rect) → grid.now ≡ grid_of all
        → count ≡ length (corners_in all (P.points set.now))) }
{
    let mut rects = Vec::new(alloc);
    set.push_rects(&mut rects)?;
    Ok(corner_count(grid, rects.as_slice()))
}

/// How many cells of a grid begin in each of some spaces.
fn counted<P: SetOfRects>(
    alloc: Global,
    grid: &Grid,
    spaces: &[Space<P>],
) -> Result<Rows<ById, SpaceCorners>, Memory>
    ensures { IfOk result (λ rows. (all : List Rect) → grid.now ≡ grid_of all
        → rows ≡ map (space_corners all) (map (space_seen P.points) spaces.now)) }
{
    let mut rows = Rows::new(alloc);
    for space in spaces {
        let count = corners_in(alloc, grid, &space.set)?;
        rows.push(SpaceCorners {
            id: space.id,
            count,
        })?;
    }
    Ok(rows)
}

impl Corners {
    /// How many cells of a log's grid begin in each of its spaces, by a few binary searches for each rectangle.
    pub fn of<P: SetOfRects>(alloc: Global, tables: &LogTables<P>) -> Result<Corners, Memory>
        ensures { IfOk result (λ c. c ≡ corners_of tables.now) }
    {
        let grid = Grid::build(alloc, tables.rects())?;
        let rows = counted(alloc, &grid, tables.spaces())?;
        Ok(Corners { grid, rows })
    }

    /// How many cells begin in the first space with this id: none where there is no such space.
    pub fn at(&self, id: u32) -> u128
        ensures { result ≡ corner_total self.now id }
    {
        match self.rows.get(id) {
            Some(row) => row.count,
            None => 0,
        }
    }

    /// The points of a set at which cells begin, least first.
    pub fn points_in<P: PointSet>(&self, alloc: Global, set: &P) -> Result<Vec<u64>, Memory>
        ensures { IfOk result (λ points. (t : Tables) → self.now ≡ corners_of t
            → points.items ≡ corners_in t.rects (P.points set.now)) }
    {
        corner_points(alloc, &self.grid, set)
    }
}
