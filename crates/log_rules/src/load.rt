//! The load of a log: for each cell of each instance, the requirements that reduce at the place of the cell.

ghost use Rattle.std.specs.Prelude.{◌≡◌, ◌&&◌, [], ◌∷◌, map, IfOk, OnOk, sum_by};
ghost use Rattle.std.specs.List.Sorted.{IsStrictlyIncreasing};
ghost use Rattle.vocabulary.specs.Prelude.{Place, same_place};
ghost use Rattle.semantics.specs.Rules.{has_much_load, points_counted, reduces};
ghost use Rattle.log_limits.specs.Sums.{cut};
ghost use Rattle.log_rules.specs.Loads.{AreLoads, CountsAt, CountsBy, counts_at, load_in, is_held, row_load, grid_load, inst_load};
ghost use Rattle.log_rules.specs.Tallied.{AreAtEnd};

use log_limits::{Corners, exceeds, raised};
use log_tables::LogTables;
use memory::Memory;
use point_set::{PointList, PointSet, points_in};
use privilege::Priv;
use semantics::{Inst, MOST_LOAD, Place, Req};
use spy_grammar::Record;
use std::alloc::{AllocError, Global};
use std::collections::HashMap;

/// What a log declares, and, where it is of the second version, at which points cells of its grid begin: these alone are counted then.
#[derive(Clone, Copy)]
struct Counted<'w, P: PointSet> {
    tables: &'w LogTables<P>,
    corners: Option<&'w Corners>,
}

/// How many requirements reduce at each place.
#[derive(Drop)]
pub(crate) struct Loads {
    counts: HashMap<Place, u128>,
}

/// Whether a privilege reduces.
fn reduces(access: Priv) -> bool
    ensures { result ≡ reduces access }
{
    match access {
        Priv::Red(_) => true,
        _ => false,
    }
}

impl Loads {
    /// No requirement reduces anywhere.
    fn new(alloc: Global) -> Loads
        ensures { (k : Place) → load_in result k ≡ 0 }
    {
        Loads {
            counts: HashMap::new(alloc),
        }
    }

    /// How many requirements reduce at a place.
    fn at(&self, place: Place) -> u128
        ensures { result ≡ load_in self.now place }
    {
        match self.counts.get(&place) {
            Some(count) => *count,
            None => 0,
        }
    }

    /// One requirement more at a place.
    fn add(&mut self, place: Place) -> Result<(), AllocError>
        ensures { OnOk result (CountsAt self.old self.new (same_place place)) }
    {
        let count = raised(self.at(place), 1);
        self.counts.insert(place, count)?;
        Ok(())
    }

    /// One requirement more at a point and these fields.
    fn add_at_point(&mut self, tree: u32, point: u64, fields: &[u32]) -> Result<(), AllocError>
        requires { IsStrictlyIncreasing fields.now }
        ensures { OnOk result (CountsAt self.old self.new (is_held tree (point ∷ []) fields.now)) }
    {
        for field in fields {
            let place = Place {
                tree,
                point,
                field: *field,
            };
            self.add(place)?;
        }
        Ok(())
    }

    /// One requirement more at these points and fields.
    fn add_all<P: PointSet>(&mut self, tree: u32, set: &P, fields: &[u32]) -> Result<(), AllocError>
        requires { IsStrictlyIncreasing fields.now }
        ensures { OnOk result (CountsAt self.old self.new (is_held tree (P.points set.now) fields.now)) }
    {
        for point in points_in(set) {
            self.add_at_point(tree, point, fields)?;
        }
        Ok(())
    }

    /// One requirement more at these points, which ascend, and fields.
    fn add_listed(&mut self, tree: u32, points: &[u64], fields: &[u32]) -> Result<(), AllocError>
        requires { IsStrictlyIncreasing fields.now }
        ensures { OnOk result (IsStrictlyIncreasing points.now
            → CountsAt self.old self.new (is_held tree points.now fields.now)) }
    {
        match PointList::over(points) {
            Some(list) => self.add_all(tree, &list, fields),
            None => Ok(()),
        }
    }

    /// One requirement more at the points of its space that are counted.
    fn add_space<P: PointSet>(
        &mut self,
        alloc: Global,
        log: &Counted<'_, P>,
        req: &Req,
    ) -> Result<(), Memory>
        requires { IsStrictlyIncreasing req.now.fields }
        ensures { OnOk result (CountsBy log.now.tables.now log.now.corners
            → CountsAt self.old self.new (is_held req.now.tree (points_counted log.now.tables.now req.now.space)
            req.now.fields)) }
    {
        let Some(set) = log.tables.set(req.space) else {
            return Ok(());
        };
        match log.corners {
            Some(corners) => {
                let points = corners.points_in(alloc, set)?;
                self.add_listed(req.tree, points.as_slice(), req.fields.as_slice())?;
            }
            None => self.add_all(req.tree, set, req.fields.as_slice())?,
        }
        Ok(())
    }

    /// One requirement more, if it reduces.
    fn add_req<P: PointSet>(
        &mut self,
        alloc: Global,
        log: &Counted<'_, P>,
        req: &Req,
    ) -> Result<(), Memory>
        requires { IsStrictlyIncreasing req.now.fields }
        ensures { OnOk result (CountsBy log.now.tables.now log.now.corners
            → CountsAt self.old self.new (λ k. reduces req.now.access && counts_at log.now.tables.now k req.now)) }
    {
        if reduces(req.access) {
            self.add_space(alloc, log, req)
        } else {
            Ok(())
        }
    }

    /// How many requirements of a log reduce at each place whose point is counted.
    fn of<P: PointSet>(alloc: Global, log: &Counted<'_, P>) -> Result<Loads, Memory>
        ensures { IfOk result (λ loads. CountsBy log.now.tables.now log.now.corners
            → AreLoads log.now.tables.now loads log.now.tables.now.reqs) }
    {
        let mut loads = Loads::new(alloc);
        for req in log.tables.reqs() {
            loads.add_req(alloc, log, req)?;
        }
        Ok(loads)
    }

    /// The load at a point and these fields.
    fn at_point(&self, tree: u32, point: u64, fields: &[u32]) -> u128
        ensures { result ≡ cut (row_load (load_in self.now) tree fields.now point) }
    {
        let mut load = 0u128;
        for field in fields {
            let place = Place {
                tree,
                point,
                field: *field,
            };
            load = raised(load, self.at(place));
        }
        load
    }

    /// The load at these points and fields.
    fn at_all<P: PointSet>(&self, tree: u32, set: &P, fields: &[u32]) -> u128
        ensures { result ≡ cut (grid_load (load_in self.now) tree fields.now (P.points set.now)) }
    {
        let mut load = 0u128;
        for point in points_in(set) {
            load = raised(load, self.at_point(tree, point, fields));
        }
        load
    }

    /// The load at these points, which ascend, and fields.
    fn at_listed(&self, tree: u32, points: &[u64], fields: &[u32]) -> u128
        ensures { IsStrictlyIncreasing points.now → result ≡ cut (grid_load (load_in self.now) tree fields.now points.now) }
    {
        match PointList::over(points) {
            Some(list) => self.at_all(tree, &list, fields),
            None => 0,
        }
    }

    /// The load of an instance, at the points that are counted.
    fn of_inst<P: PointSet>(
        &self,
        alloc: Global,
        log: &Counted<'_, P>,
        inst: &Inst,
    ) -> Result<u128, Memory>
        ensures { IfOk result (λ load. CountsBy log.now.tables.now log.now.corners
            → load ≡ cut (inst_load (load_in self.now) log.now.tables.now inst.now)) }
    {
        let Some(set) = log.tables.set(inst.space) else {
            return Ok(0);
        };
        match log.corners {
            Some(corners) => {
                let points = corners.points_in(alloc, set)?;
                Ok(self.at_listed(inst.tree, points.as_slice(), inst.fields.as_slice()))
            }
            None => Ok(self.at_all(inst.tree, set, inst.fields.as_slice())),
        }
    }

    /// The load of all instances.
    fn of_insts<P: PointSet>(&self, alloc: Global, log: &Counted<'_, P>) -> Result<u128, Memory>
        ensures { IfOk result (λ load. CountsBy log.now.tables.now log.now.corners
            → load ≡ cut (sum_by (inst_load (load_in self.now) log.now.tables.now) log.now.tables.now.insts)) }
    {
        let mut load = 0u128;
        for inst in log.tables.insts() {
            load = raised(load, self.of_inst(alloc, log, inst)?);
        }
        Ok(load)
    }
}

/// Whether a record ends a log whose instances have too much load together.
pub fn has_much_load<P: PointSet>(
    alloc: Global,
    tables: &LogTables<P>,
    corners: Option<&Corners>,
    rec: &Record,
) -> Result<bool, Memory>
    ensures { IfOk result (λ much. AreAtEnd tables.now rec.now corners.entry
        → much ≡ has_much_load tables.now rec.now) }
{
    match rec {
        Record::End { .. } => {
            let log = Counted { tables, corners };
            let loads = Loads::of(alloc, &log)?;
            let load = loads.of_insts(alloc, &log)?;
            Ok(exceeds(0, load, MOST_LOAD))
        }
        _ => Ok(false),
    }
}
