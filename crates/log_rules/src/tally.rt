//! What is kept count of along a log, and the limits on it.

ghost use Rattle.std.specs.Prelude.{◌≡◌, ◌≤◌, nat_eq, ℕ, List, [], ◌++◌, ◌∷◌, false, true, Option, option_map, OnOk};
ghost use Rattle.id_maps.specs.Sets.{has_id};
ghost use Rattle.point_set.specs.declared.rect.Rect.{Rect};
ghost use Rattle.grid.specs.Corners.{cell_count};
ghost use Rattle.grid.specs.Cuts.{grid_of};
ghost use Rattle.vocabulary.specs.Prelude.{Record, no_tables, records_of, with_record};
ghost use Rattle.semantics.specs.declared.limits.TheConstants.{MOST_ACCESSES};
ghost use Rattle.semantics.specs.Rules.{has_many_points, has_many_atoms, has_many_cells, has_many_accesses, is_planar};
ghost use Rattle.log_tables.specs.Views.{Ascends};
ghost use Rattle.log_rules.specs.Own.{AddsAt, claimed};
ghost use Rattle.log_rules.specs.Listing.{AddsAll, ids_listed};
ghost use Rattle.log_rules.specs.Tallied.{AreAtEnd, IfTally, IsTally, Keeps, MayCount, adds_nothing, rects_in};

use crate::claim_points::ClaimPoints;
use crate::claims::{Claims, FEW, ItemReq};
use crate::counts::{cells_asked, points_asked};
use crate::named::Named;
use crate::serial::note_all;
use crate::space_pairs::SpacePairs;
use grid::Grid;
use id_maps::IdSet;
use log_limits::{Corners, access_total, cell_total, exceeds, raised};
use log_tables::{LogTables, priv_of};
use memory::Memory;
use point_set::PointSet;
use semantics::{Inst, MOST_ACCESSES, MOST_ATOMS, MOST_CELLS, MOST_POINTS, Req, Tree};
use spy_grammar::{Lined, Record};
use std::alloc::{AllocError, Global};

/// What the records so far add up to: their points, cells and accesses, the items that they list in serial order, what is known of pairs of spaces, and the places that the requirements of each task claim, but for its first few. Once they ask for too many places none is claimed.
#[derive(Drop)]
pub struct Tally {
    pub(crate) points: u128,
    pub(crate) cells: u128,
    pub(crate) accesses: u128,
    pub(crate) listed: IdSet,
    pub(crate) places: ClaimPoints,
    pub(crate) pairs: SpacePairs,
    pub(crate) claimed: u128,
    pub(crate) claims: Claims,
}

/// Notes the items that a record lists.
fn note_listed(listed: &mut IdSet, rec: &Record) -> Result<(), AllocError>
    ensures { OnOk result (AddsAll (has_id listed.old) (has_id listed.new)
        (ids_listed rec.now)) }
{
    match rec {
        Record::Serial { items } => note_all(listed, items.as_slice()),
        _ => note_all(listed, &[]),
    }
}

/// How many places the requirements so far and a record ask for.
fn claimed_with<P: PointSet>(tally: &Tally, named: &Named<'_, P>) -> u128
    ensures { tally.now.claimed ≤ result }
{
    raised(tally.claimed, tally.places.asked(named))
}

/// Claims the places of a record, if it is a requirement, and not one of the first few of its task. Later ones are held against the first few themselves, so that a task with few requirements claims nothing. Nothing is claimed where the requirements ask for too many places.
fn note_claims<P: PointSet>(
    alloc: Global,
    claims: &mut Claims,
    places: &ClaimPoints,
    sum: u128,
    named: &Named<'_, P>,
) -> Result<(), Memory>
    ensures { OnOk result ((all : Option (List Rect)) → places.now.grid ≡ option_map grid_of all
        → sum ≤ MOST_ACCESSES
        → AddsAt all claims.old claims.new (claimed named.now.tables.now named.now.rec.now)) }
{
    if sum > MOST_ACCESSES {
        return Ok(());
    }
    match named.rec {
        Record::Req {
            tree,
            space,
            fields,
            access,
            ..
        } => {
            if named.before < FEW {
                return Ok(());
            }
            let points = places.points_in(alloc, named.tables, *space)?;
            claims.claim_all(
                points.as_slice(),
                &ItemReq {
                    item: named.item,
                    tree: *tree,
                    space: *space,
                    fields: fields.as_slice(),
                    access: priv_of(*access),
                },
            )?;
            Ok(())
        }
        _ => Ok(()),
    }
}

/// Whether a record is of a kind that adds nothing to the tally, as most records are.
fn adds_nothing(rec: &Record) -> bool
    ensures { result ≡ adds_nothing rec.now }
{
    match rec {
        Record::Task { .. } | Record::Map { .. } | Record::Run { .. } | Record::Merge { .. } => {
            true
        }
        _ => false,
    }
}

impl Tally {
    /// The tally of no records. In a log of the second version the grid is that of all its rectangles.
    pub fn new(alloc: Global, grid: Option<Grid>) -> Tally
        ensures { (all : Option (List Rect)) → grid ≡ option_map grid_of all
            → IsTally all [] no_tables result }
    {
        Tally {
            points: 0,
            cells: 0,
            accesses: 0,
            listed: IdSet::new(alloc),
            places: ClaimPoints::new(alloc, grid),
            pairs: SpacePairs::new(alloc),
            claimed: 0,
            claims: Claims::new(alloc),
        }
    }

    /// Remembers whether a space is within another one, if it has many cells.
    fn remember_within<P: PointSet>(
        &mut self,
        tables: &LogTables<P>,
        ours: u32,
        theirs: u32,
    ) -> Result<(), AllocError>
        ensures { OnOk result (Keeps tables.now self.old self.new) }
    {
        if !self.places.has_many(ours) {
            return Ok(());
        }
        self.pairs.note_within(tables, ours, theirs)?;
        Ok(())
    }

    /// Remembers whether two spaces meet, if one of them has many cells.
    fn remember_meeting<P: PointSet>(
        &mut self,
        tables: &LogTables<P>,
        ours: u32,
        theirs: u32,
    ) -> Result<(), AllocError>
        ensures { OnOk result (Keeps tables.now self.old self.new) }
    {
        if !self.places.has_many(ours) && !self.places.has_many(theirs) {
            return Ok(());
        }
        self.pairs.note_meeting(tables, ours, theirs)?;
        Ok(())
    }

    /// Remembers whether a space is within that of an instance.
    fn remember_held<P: PointSet>(
        &mut self,
        tables: &LogTables<P>,
        space: u32,
        inst: Option<&Inst>,
    ) -> Result<(), AllocError>
        ensures { OnOk result (Keeps tables.now self.old self.new) }
    {
        match inst {
            Some(inst) => self.remember_within(tables, space, inst.space),
            None => Ok(()),
        }
    }

    /// Remembers whether a space is within those of two instances.
    fn remember_both<P: PointSet>(
        &mut self,
        tables: &LogTables<P>,
        space: u32,
        src: Option<&Inst>,
        dst: Option<&Inst>,
    ) -> Result<(), AllocError>
        ensures { OnOk result (Keeps tables.now self.old self.new) }
    {
        self.remember_held(tables, space, src)?;
        self.remember_held(tables, space, dst)?;
        Ok(())
    }

    /// Remembers whether the space of a requirement is within that of an instance.
    fn remember_mapped<P: PointSet>(
        &mut self,
        tables: &LogTables<P>,
        req: Option<&Req>,
        inst: Option<&Inst>,
    ) -> Result<(), AllocError>
        ensures { OnOk result (Keeps tables.now self.old self.new) }
    {
        match req {
            Some(req) => self.remember_held(tables, req.space, inst),
            None => Ok(()),
        }
    }

    /// Remembers whether a space is within the root space of a tree.
    fn remember_rooted<P: PointSet>(
        &mut self,
        tables: &LogTables<P>,
        space: u32,
        tree: Option<Tree>,
    ) -> Result<(), AllocError>
        ensures { OnOk result (Keeps tables.now self.old self.new) }
    {
        match tree {
            Some(tree) => self.remember_within(tables, space, tree.space),
            None => Ok(()),
        }
    }

    /// Remembers whether a space meets those of the first few requirements of a task.
    fn remember_few<P: PointSet>(
        &mut self,
        tables: &LogTables<P>,
        item: usize,
        space: u32,
    ) -> Result<(), AllocError>
        ensures { OnOk result (Keeps tables.now self.old self.new) }
    {
        for before in 0..FEW {
            let Some(req) = tables.req(item, before as u32 + 1) else {
                return Ok(());
            };
            self.remember_meeting(tables, req.space, space)?;
        }
        Ok(())
    }

    /// Remembers what the rules on a record ask of two spaces, of which one has many cells, so that two such spaces are held against each other by their sets once in a log, however many records ask for it. In a log of the first version no space has many, and nothing is remembered.
    pub fn remember<P: PointSet>(&mut self, named: &Named<'_, P>) -> Result<(), AllocError>
        ensures { OnOk result (Keeps named.now.tables.now self.old self.new) }
    {
        let tables = named.tables;
        if !tables.is_planar() {
            return Ok(());
        }
        match named.rec {
            Record::Req { space, .. } => self.remember_few(tables, named.item, *space),
            Record::Inst { space, .. } => self.remember_rooted(tables, *space, named.tree),
            Record::Map { .. } => self.remember_mapped(tables, named.req, named.inst),
            Record::Copy { space, .. } | Record::Fold { space, .. } => {
                self.remember_both(tables, *space, named.inst, named.target)
            }
            Record::Put { space, .. } | Record::Reset { space, .. } => {
                self.remember_held(tables, *space, named.inst)
            }
            _ => Ok(()),
        }
    }

    /// Takes one record more into account, given what the records before it declare. Where memory runs out the tally is of no use any more.
    pub fn add<P: PointSet>(&mut self, alloc: Global, named: &Named<'_, P>) -> Result<(), Memory>
        requires { Ascends named.now.rec.now }
        ensures { OnOk result ((all : Option (List Rect)) (earlier : List Record) (line : ℕ)
            → IsTally all earlier named.now.tables.now self.old
            → MayCount all earlier named.now.tables.now named.now.rec.now
            → IsTally all (earlier ++ named.now.rec.now ∷ [])
            (with_record named.now.tables.now line named.now.rec.now) self.new) }
    {
        let tables = named.tables;
        let rec = named.rec;
        if adds_nothing(rec) {
            return Ok(());
        }
        self.points = raised(self.points, points_asked(rec));
        self.cells = raised(self.cells, cells_asked(tables, rec));
        self.accesses = raised(self.accesses, named.asked);
        note_listed(&mut self.listed, rec)?;
        let claimed = claimed_with(self, named);
        note_claims(alloc, &mut self.claims, &self.places, claimed, named)?;
        self.pairs.note(alloc, &self.places, tables, rec)?;
        self.places.note(alloc, rec)?;
        self.claimed = claimed;
        Ok(())
    }
}

/// Whether the spaces up to a record have too many points together, in a log of the first version.
pub fn has_many_points<P: PointSet>(tables: &LogTables<P>, tally: &Tally, rec: &Record) -> bool
    requires { Ascends rec.now }
    ensures { IfTally tables.now tally.now (λ earlier. result ≡ has_many_points tables.now rec.now) }
{
    if tables.is_planar() {
        return false;
    }
    match rec {
        Record::Ispace { .. } | Record::Plane { .. } => exceeds(
            tally.points,
            points_asked(rec),
            MOST_POINTS,
        ),
        _ => false,
    }
}

/// Whether the spaces up to a record make a grid of too many cells, of which there are so many, in a log of the second version.
pub fn has_many_atoms<P: PointSet>(tables: &LogTables<P>, cells: u128, rec: &Record) -> bool
    ensures { (is_planar tables.now ≡ true → cells ≡ cell_count (tables.now.rects ++ rects_in rec.now))
        → result ≡ has_many_atoms tables.now rec.now }
{
    match rec {
        Record::Ispace { .. } | Record::Plane { .. } => tables.is_planar() && cells > MOST_ATOMS,
        _ => false,
    }
}

/// Whether the instances have too many cells together: those up to an instance in a log of the first version, and all at the end of one of the second.
pub fn has_many_cells<P: PointSet>(
    tables: &LogTables<P>,
    tally: &Tally,
    corners: Option<&Corners>,
    rec: &Record,
) -> bool
    ensures { IfTally tables.now tally.now (λ earlier. AreAtEnd tables.now rec.now corners.entry
        → result ≡ has_many_cells tables.now rec.now) }
{
    match rec {
        Record::Inst { .. } => {
            !tables.is_planar() && exceeds(tally.cells, cells_asked(tables, rec), MOST_CELLS)
        }
        Record::End { .. } => match corners {
            Some(corners) => exceeds(0, cell_total(corners, tables.insts()), MOST_CELLS),
            None => false,
        },
        _ => false,
    }
}

/// Whether records ask for too many accesses together: those up to each record in a log of the first version, and all at the end of one of the second.
pub fn has_many_accesses<P: PointSet>(
    named: &Named<'_, P>,
    tally: &Tally,
    corners: Option<&Corners>,
    earlier: &[Lined],
) -> bool
    ensures { IfTally named.now.tables.now tally.now (λ before. before ≡ records_of earlier.now
        → AreAtEnd named.now.tables.now named.now.rec.now corners.entry
        → result ≡ has_many_accesses before named.now.tables.now named.now.rec.now) }
{
    match corners {
        Some(corners) => exceeds(0, access_total(corners, earlier), MOST_ACCESSES),
        None => { !named.tables.is_planar() && exceeds(tally.accesses, named.asked, MOST_ACCESSES) }
    }
}

/// Whether a record and the requirements so far ask for so many places that they are not claimed.
pub(crate) fn claims_many<P: PointSet>(tally: &Tally, named: &Named<'_, P>) -> bool
    ensures { result ≡ false → tally.now.claimed ≤ MOST_ACCESSES }
{
    claimed_with(tally, named) > MOST_ACCESSES
}
