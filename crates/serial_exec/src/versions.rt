//! The values of sequential execution.

ghost use Rattle.std.specs.Prelude.{◌≡◌, ◌<◌, length, IfOk};
ghost use Rattle.std.specs.List.Sorted.{IsNonDecreasingBy, IsStrictlyIncreasing};
ghost use Rattle.serial_exec.specs.Changes.{AreFirst, before};
ghost use Rattle.point_laws.specs.Cut.{cut};
ghost use Rattle.serial_exec.specs.Kept.{AreVersionsAt, AreVersionsOf, changes_before, changes_in, value_at};

use crate::change::Change;
use crate::gathering::histories_of;
use crate::place_lists::PlaceLists;
use crate::sums::{latest, sum_of};
use cut_logs::CutLog;
use logs::Log;
use point_set::PointSet;
use semantics::Place;
use std::alloc::Global;
use std::marker::Model;
use value_terms::{Memory, Value};

/// The changes of sequential execution at each place, and the place of each item in serial order.
///
/// Contracts see what is kept; `value_at` says what it means.
#[derive(Drop)]
pub struct Versions {
    positions: Vec<usize>,
    histories: PlaceLists<Change>,
}

impl Model for Versions {
    ghost use Rattle.serial_exec.specs.Kept.{Kept, kept, AreInOrder};

    ghost Value = { Kept };

    ghost view = { λ v. kept v.positions.items v.histories };

    ghost invariant = { λ v. AreInOrder (kept v.positions.items v.histories) };
}

impl Versions {
    /// The versions of a log that may be cut.
    fn of<P: PointSet + Copy>(
        alloc: Global,
        log: &CutLog<'_, '_, '_, P>,
    ) -> Result<Versions, Memory>
        ensures { IfOk result (AreVersionsOf log.now) }
    {
        let positions = Vec::from_slice(alloc, log.serial_places())?;
        let histories = histories_of(alloc, log)?;
        Ok(Versions {
            positions,
            histories,
        })
    }

    /// The versions at all points.
    pub fn build<'a, P: PointSet + Copy>(
        alloc: Global,
        log: &Log<'a, P>,
    ) -> Result<Versions, Memory>
        ensures { IfOk result (AreVersionsOf log.now) }
    {
        let log = CutLog::whole(log);
        Versions::of(alloc, &log)
    }

    /// The versions at the listed points: there they say what the whole log wants, and elsewhere what the tables want that are cut to these points.
    pub fn build_on<'a, P: PointSet + Copy>(
        alloc: Global,
        log: &Log<'a, P>,
        points: &[u64],
    ) -> Result<Versions, Memory>
        requires { IsStrictlyIncreasing points.now }
        ensures cut { IfOk result (AreVersionsOf (cut points.now log.now)) }
        ensures listed { IfOk result (AreVersionsAt points.now log.now) }
    {
        let log = CutLog::at(log, points);
        Versions::of(alloc, &log)
    }

    /// How many items the log has.
    pub fn len(&self) -> usize
        ensures { result ≡ length self.now.positions }
    {
        self.positions.len()
    }

    /// The changes at a place.
    fn changes_at(&self, place: &Place) -> &[Change]
        ensures { result.now ≡ changes_in self.now place.now }
    {
        self.histories.at(place)
    }

    /// The changes at a place by the items before an item, in serial order, which are the first of all there.
    pub fn changes_before(&self, item: usize, place: &Place) -> &[Change]
        requires { item < length self.now.positions }
        ensures before { result.now ≡ changes_before self.now item place.now }
        ensures first { AreFirst (changes_in self.now place.now) result.now }
    {
        changes_until(self.changes_at(place), self.positions[item])
    }

    /// The value that a read of an item should see at a place: that of sequential execution just before the item.
    pub fn want(&self, alloc: Global, item: usize, place: &Place) -> Result<Value, Memory>
        requires { item < length self.now.positions }
        ensures { IfOk result (λ v. v ≡ value_at self.now item place.now) }
    {
        let (base, added) = latest(self.changes_before(item, place));
        sum_of(alloc, base, added)
    }
}

/// The changes by items that come earlier in serial order, by a binary search.
fn changes_until(changes: &[Change], position: usize) -> &[Change]
    requires { IsNonDecreasingBy (λ c. c.position) changes.now }
    ensures before { result.now ≡ before position changes.now }
    ensures first { AreFirst changes.now result.now }
{
    let end = changes.partition_point(|change| change.position < position);
    &changes[..end]
}
