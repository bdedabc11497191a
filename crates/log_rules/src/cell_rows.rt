//! The cells of the grid of the whole log that large spaces have, as bits.

ghost use Rattle.std.specs.Prelude.{◌≡◌, List, MatchOption, Option, Some, ⊤, ℕ, option_map, IfOk, IfSome, OnOk};
ghost use Rattle.point_set.specs.declared.rect.Rect.{Rect};
ghost use Rattle.point_set.specs.Rects.{rect_points};
ghost use Rattle.grid.specs.Cuts.{grid_of};
ghost use Rattle.cell_bits.specs.Bits.{AreBitsOf};
ghost use Rattle.vocabulary.specs.Prelude.{Tables, is_within, meets, points_in, with_record};
ghost use Rattle.log_tables.specs.Views.{Ascends};
ghost use Rattle.log_rules.specs.Cells.{HasCells};
ghost use Rattle.log_rules.specs.Rows.{HasRows, IsNewRow, space_declared};
ghost use Rattle.log_rules.specs.Tallied.{rects_in};

use crate::claim_points::{ClaimPoints, rects_declared};
use cell_bits::CellBits;
use grid::Grid;
use log_tables::LogTables;
use point_set::PointSet;
use spy_grammar::Record;
use std::alloc::{AllocError, Global};
use std::collections::HashMap;

/// How many rectangles a space has at most of which no bits are kept.
const FEW_RECTS: usize = 1_024;

/// The cells that large spaces have, in a log of the second version, so that two of these spaces are held against each other word by word. Only how much work is done rests on which spaces these are.
#[derive(Drop)]
pub(crate) struct CellRows {
    rows: HashMap<u32, CellBits>,
}

/// The cells of the space that a record declares, if it is a large one, with its id.
fn bits_declared(
    alloc: Global,
    grid: &Grid,
    rec: &Record,
) -> Result<Option<(u32, CellBits)>, AllocError>
    requires { Ascends rec.now }
    ensures { IfOk result (λ found. (all : List Rect) → grid.now ≡ grid_of all
        → MatchOption found ⊤ (λ f. (space_declared rec.now ≡ Some f.0)
        × AreBitsOf grid.now (rect_points (rects_in rec.now)) f.1)) }
{
    match rec {
        Record::Ispace { id, .. } | Record::Plane { id, .. } => {
            let rects = rects_declared(alloc, rec)?;
            if rects.len() <= FEW_RECTS {
                return Ok(None);
            }
            match CellBits::of(alloc, grid, rects.as_slice())? {
                Some(bits) => Ok(Some((*id, bits))),
                None => Ok(None),
            }
        }
        _ => Ok(None),
    }
}

/// The cells that are noted of a record, with the id of its space: those of a large space, in a log of the second version.
fn bits_noted<P: PointSet>(
    alloc: Global,
    places: &ClaimPoints,
    tables: &LogTables<P>,
    rec: &Record,
) -> Result<Option<(u32, CellBits)>, AllocError>
    requires { Ascends rec.now }
    ensures { IfOk result (λ found. (all : Option (List Rect)) → places.now.grid ≡ option_map grid_of all
        → MatchOption found ⊤ (λ f. IsNewRow all tables.now rec.now f.0 f.1)) }
{
    match &places.grid {
        Some(grid) => bits_declared(alloc, grid, rec),
        None => Ok(None),
    }
}

impl CellRows {
    /// No bits are kept.
    pub(crate) fn new(alloc: Global) -> CellRows
        ensures { (all : Option (List Rect)) (t : Tables) → HasRows all t result }
    {
        CellRows {
            rows: HashMap::new(alloc),
        }
    }

    /// Notes the cells of the space that a record declares, if it is a large one and is not declared yet.
    pub(crate) fn note<P: PointSet>(
        &mut self,
        alloc: Global,
        places: &ClaimPoints,
        tables: &LogTables<P>,
        rec: &Record,
    ) -> Result<(), AllocError>
        requires { Ascends rec.now }
        ensures { OnOk result ((all : Option (List Rect)) (line : ℕ)
            → places.now.grid ≡ option_map grid_of all → HasRows all tables.now self.old
            → HasRows all (with_record tables.now line rec.now) self.new) }
    {
        let Some((id, bits)) = bits_noted(alloc, places, tables, rec)? else {
            return Ok(());
        };
        if tables.has_space(id) {
            return Ok(());
        }
        self.rows.insert(id, bits)?;
        Ok(())
    }

    /// Whether each point of a space is in another one, if bits of both are kept.
    pub(crate) fn within(&self, ours: u32, theirs: u32) -> Option<bool>
        ensures { IfSome result (λ answer. (all : Option (List Rect)) (t : Tables) → HasCells all t
            → HasRows all t self.now → answer ≡ is_within (points_in t ours) (points_in t theirs)) }
    {
        if self.rows.is_empty() {
            return None;
        }
        match (self.rows.get(&ours), self.rows.get(&theirs)) {
            (Some(bits), Some(others)) => Some(bits.within(others)),
            _ => None,
        }
    }

    /// Whether two spaces have a point in common, if bits of both are kept.
    pub(crate) fn meets(&self, ours: u32, theirs: u32) -> Option<bool>
        ensures { IfSome result (λ answer. (all : Option (List Rect)) (t : Tables) → HasCells all t
            → HasRows all t self.now → answer ≡ meets (points_in t ours) (points_in t theirs)) }
    {
        if self.rows.is_empty() {
            return None;
        }
        match (self.rows.get(&ours), self.rows.get(&theirs)) {
            (Some(bits), Some(others)) => Some(bits.meets(others)),
            _ => None,
        }
    }
}
