//! Whether a space is within another one, and whether two spaces meet.

ghost use Rattle.std.specs.Prelude.{◌≡◌, ℕ, List, Option, [], option_map, OnOk};
ghost use Rattle.point_set.specs.declared.rect.Rect.{Rect};
ghost use Rattle.grid.specs.Cuts.{grid_of};
ghost use Rattle.vocabulary.specs.Prelude.{Tables, is_within, meets, points_in, with_record};
ghost use Rattle.log_tables.specs.Views.{Ascends};
ghost use Rattle.log_rules.specs.Cells.{HasCells};
ghost use Rattle.log_rules.specs.Pairs.{HasPairs};

use crate::cell_rows::CellRows;
use crate::claim_points::ClaimPoints;
use crate::pair_answers::PairAnswers;
use log_tables::LogTables;
use point_set::PointSet;
use spy_grammar::Record;
use std::alloc::{AllocError, Global};

/// Whether a set has no points.
fn is_empty<P: PointSet>(set: &P) -> bool
    ensures { result ≡ is_within (P.points set.now) [] }
{
    match set.first() {
        Some(_) => false,
        None => true,
    }
}

/// Whether each point of a set is in another one.
fn is_set_within<P: PointSet>(ours: &P, theirs: &P) -> bool
    ensures { result ≡ is_within (P.points ours.now) (P.points theirs.now) }
{
    ours.within(theirs)
}

/// Whether two sets have a point in common.
fn sets_meet<P: PointSet>(ours: &P, theirs: &P) -> bool
    ensures { result ≡ meets (P.points ours.now) (P.points theirs.now) }
{
    ours.meets(theirs)
}

/// Whether a space has no points.
pub(crate) fn is_vacant<P: PointSet>(tables: &LogTables<P>, space: u32) -> bool
    ensures { result ≡ is_within (points_in tables.now space) [] }
{
    match tables.set(space) {
        Some(set) => is_empty(set),
        None => true,
    }
}

/// Whether each point of a space is in another one, by their sets.
fn is_within_by_sets<P: PointSet>(tables: &LogTables<P>, ours: u32, theirs: u32) -> bool
    ensures { result ≡ is_within (points_in tables.now ours) (points_in tables.now theirs) }
{
    match (tables.set(ours), tables.set(theirs)) {
        (Some(ours), Some(theirs)) => is_set_within(ours, theirs),
        (Some(ours), None) => is_empty(ours),
        (None, _) => true,
    }
}

/// Whether two spaces have a point in common, by their sets.
fn meet_by_sets<P: PointSet>(tables: &LogTables<P>, ours: u32, theirs: u32) -> bool
    ensures { result ≡ meets (points_in tables.now ours) (points_in tables.now theirs) }
{
    let Some(our_set) = tables.set(ours) else {
        return false;
    };
    match tables.set(theirs) {
        Some(their_set) => sets_meet(our_set, their_set),
        None => false,
    }
}

/// What is known of pairs of spaces beside their sets: the cells of large spaces as bits, and what was found of pairs before. So a pair of large spaces is held against each other word by word, and no pair of which an answer was noted is held against each other again.
#[derive(Drop)]
pub(crate) struct SpacePairs {
    rows: CellRows,
    within: PairAnswers,
    meeting: PairAnswers,
}

impl SpacePairs {
    /// Nothing is known.
    pub(crate) fn new(alloc: Global) -> SpacePairs
        ensures { (all : Option (List Rect)) (t : Tables) → HasPairs all t result }
    {
        SpacePairs {
            rows: CellRows::new(alloc),
            within: PairAnswers::new(alloc),
            meeting: PairAnswers::new(alloc),
        }
    }

    /// Notes the cells of the space that a record declares, if it is a large one.
    pub(crate) fn note<P: PointSet>(
        &mut self,
        alloc: Global,
        places: &ClaimPoints,
        tables: &LogTables<P>,
        rec: &Record,
    ) -> Result<(), AllocError>
        requires { Ascends rec.now }
        ensures { OnOk result ((all : Option (List Rect)) (line : ℕ)
            → places.now.grid ≡ option_map grid_of all → HasPairs all tables.now self.old
            → HasPairs all (with_record tables.now line rec.now) self.new) }
    {
        self.rows.note(alloc, places, tables, rec)?;
        Ok(())
    }

    /// Whether each point of a space is in another one.
    pub(crate) fn within<P: PointSet>(&self, tables: &LogTables<P>, ours: u32, theirs: u32) -> bool
        ensures { (all : Option (List Rect)) → HasCells all tables.now → HasPairs all tables.now self.now
            → result ≡ is_within (points_in tables.now ours) (points_in tables.now theirs) }
    {
        if ours == theirs {
            return true;
        }
        if let Some(answer) = self.within.get(ours, theirs) {
            return answer;
        }
        match self.rows.within(ours, theirs) {
            Some(answer) => answer,
            None => is_within_by_sets(tables, ours, theirs),
        }
    }

    /// Whether two spaces have a point in common.
    pub(crate) fn meet<P: PointSet>(&self, tables: &LogTables<P>, ours: u32, theirs: u32) -> bool
        ensures { (all : Option (List Rect)) → HasCells all tables.now → HasPairs all tables.now self.now
            → result ≡ meets (points_in tables.now ours) (points_in tables.now theirs) }
    {
        if let Some(answer) = self.meeting.get(ours, theirs) {
            return answer;
        }
        match self.rows.meets(ours, theirs) {
            Some(answer) => answer,
            None => meet_by_sets(tables, ours, theirs),
        }
    }

    /// Notes whether each point of a space is in another one, unless that is known.
    pub(crate) fn note_within<P: PointSet>(
        &mut self,
        tables: &LogTables<P>,
        ours: u32,
        theirs: u32,
    ) -> Result<(), AllocError>
        ensures { OnOk result ((all : Option (List Rect)) → HasCells all tables.now
            → HasPairs all tables.now self.old → HasPairs all tables.now self.new) }
    {
        if self.within.get(ours, theirs).is_some() {
            return Ok(());
        }
        let answer = self.within(tables, ours, theirs);
        self.within.note(tables, ours, theirs, answer)?;
        Ok(())
    }

    /// Notes whether two spaces have a point in common, unless that is known.
    pub(crate) fn note_meeting<P: PointSet>(
        &mut self,
        tables: &LogTables<P>,
        ours: u32,
        theirs: u32,
    ) -> Result<(), AllocError>
        ensures { OnOk result ((all : Option (List Rect)) → HasCells all tables.now
            → HasPairs all tables.now self.old → HasPairs all tables.now self.new) }
    {
        if self.meeting.get(ours, theirs).is_some() {
            return Ok(());
        }
        let answer = self.meet(tables, ours, theirs);
        self.meeting.note(tables, ours, theirs, answer)?;
        Ok(())
    }
}
