//! The points at which requirements claim places.

ghost use Rattle.std.specs.Prelude.{◌≡◌, List, MatchOption, Option, ⊤, length, option_map, IfOk, OnOk};
ghost use Rattle.point_set.specs.declared.rect.Rect.{Rect};
ghost use Rattle.point_set.specs.Rects.{rect_points};
ghost use Rattle.grid.specs.Corners.{corners_in};
ghost use Rattle.grid.specs.Cuts.{grid_of};
ghost use Rattle.vocabulary.specs.Prelude.{points_in};
ghost use Rattle.log_tables.specs.Views.{Ascends};
ghost use Rattle.log_rules.specs.Own.{claim_points};
ghost use Rattle.log_rules.specs.Tallied.{rects_in};

use crate::claims::FEW;
use crate::named::Named;
use cell_counts::{corner_count, corner_points};
use grid::Grid;
use log_tables::{LogTables, rects_of, strips_of};
use memory::Memory;
use point_set::{PointSet, Rect, points_in};
use spy_grammar::Record;
use std::alloc::{AllocError, Global};
use std::collections::HashMap;

/// At which points requirements claim places: at all points in a log of the first version, and in one of the second where a cell of the grid of all its rectangles begins, since a space has all points of a cell or none.
///
/// How many such points there are is counted once for each space. Only how much work is done rests on these counts.
#[derive(Drop)]
pub(crate) struct ClaimPoints {
    pub(crate) grid: Option<Grid>,
    counts: HashMap<u32, u128>,
}

/// The rectangles of the space that a record declares, if it declares one.
pub fn rects_declared(alloc: Global, rec: &Record) -> Result<Vec<Rect>, AllocError>
    requires { Ascends rec.now }
    ensures { IfOk result (λ rects. rects.items ≡ rects_in rec.now) }
{
    match rec {
        Record::Ispace { set, .. } => strips_of(alloc, set.as_slice()),
        Record::Plane { rects, .. } => rects_of(alloc, rects.as_slice()),
        _ => Ok(Vec::new(alloc)),
    }
}

/// The points of a set, least first.
fn all_points<P: PointSet>(alloc: Global, set: &P) -> Result<Vec<u64>, AllocError>
    ensures { IfOk result (λ points. points.items ≡ P.points set.now) }
{
    let mut points = Vec::with_capacity(alloc, usize::try_from(set.count()).unwrap_or(0))?;
    for point in points_in(set) {
        points.push(point)?;
    }
    Ok(points)
}

/// The id of the space that a record declares, and how many cells begin in it.
fn corners_declared(
    alloc: Global,
    grid: &Grid,
    rec: &Record,
) -> Result<Option<(u32, u128)>, AllocError>
    requires { Ascends rec.now }
    ensures { IfOk result (λ found. (all : List Rect) → grid.now ≡ grid_of all → MatchOption found ⊤
        (λ f. f.1 ≡ length (corners_in all (rect_points (rects_in rec.now))))) }
{
    match rec {
        Record::Ispace { id, .. } | Record::Plane { id, .. } => {
            let rects = rects_declared(alloc, rec)?;
            Ok(Some((*id, corner_count(grid, rects.as_slice()))))
        }
        _ => Ok(None),
    }
}

/// How many cells begin at most in a space that is held against others by its set again and again.
const FEW_CELLS: u128 = 256;

impl ClaimPoints {
    /// The grid is that of the whole log, if it is of the second version.
    pub fn new(alloc: Global, grid: Option<Grid>) -> ClaimPoints
        ensures { result.grid ≡ grid }
    {
        ClaimPoints {
            grid,
            counts: HashMap::new(alloc),
        }
    }

    /// Counts at how many points of the space that a record declares cells of the grid begin.
    pub fn note(&mut self, alloc: Global, rec: &Record) -> Result<(), AllocError>
        requires { Ascends rec.now }
        ensures { OnOk result (self.new.grid ≡ self.old.grid) }
    {
        let found = match &self.grid {
            Some(grid) => corners_declared(alloc, grid, rec)?,
            None => None,
        };
        if let Some((id, count)) = found {
            self.counts.insert(id, count)?;
        }
        Ok(())
    }

    /// At how many points of a space places are claimed.
    fn count<P: PointSet>(&self, tables: &LogTables<P>, space: u32) -> u128 {
        if self.grid.is_some() {
            return self.counts.get(&space).copied().unwrap_or(0);
        }
        match tables.set(space) {
            Some(set) => set.count(),
            None => 0,
        }
    }

    /// Whether many cells begin in a space, in a log of the second version.
    pub fn has_many(&self, space: u32) -> bool {
        match self.counts.get(&space) {
            Some(count) => *count > FEW_CELLS,
            None => false,
        }
    }

    /// How many places a record claims: a requirement claims some, unless it is one of the first few of its task.
    pub fn asked<P: PointSet>(&self, named: &Named<'_, P>) -> u128 {
        match named.rec {
            Record::Req { space, fields, .. } if named.before >= FEW => {
                self.count(named.tables, *space)
                    .saturating_mul(fields.len() as u128)
            }
            _ => 0,
        }
    }

    /// The points of a space at which places are claimed, least first.
    pub fn points_in<P: PointSet>(
        &self,
        alloc: Global,
        tables: &LogTables<P>,
        space: u32,
    ) -> Result<Vec<u64>, Memory>
        ensures { IfOk result (λ points. (all : Option (List Rect)) → self.now.grid ≡ option_map grid_of all
            → points.items ≡ claim_points all (points_in tables.now space)) }
    {
        let Some(set) = tables.set(space) else {
            return Ok(Vec::new(alloc));
        };
        match &self.grid {
            Some(grid) => corner_points(alloc, grid, set),
            None => Ok(all_points(alloc, set)?),
        }
    }
}
