//! The first point of each kind of a log.

ghost use Rattle.std.specs.Prelude.{◌≡◌, ◌≤◌, ℕ, Contains, IfOk};
ghost use Rattle.std.specs.List.Sorted.{IsStrictlyIncreasing};
ghost use Rattle.point_laws.specs.Alike.{AreAlike, AreFirsts, AreReadFirsts};
ghost use Rattle.point_kinds.specs.Kinds.{atom_shares, shares};

use crate::kinds::kinds_of;
use crate::read_points::points_read;
use atoms::Atoms;
use logs::Log;
use memory::Memory;
use partings::leads;
use point_set::PointSet;
use std::alloc::{AllocError, Global};
use std::marker::Model;

/// The atoms of each space are told apart from others while the spaces have no more atoms together. Each takes a search.
pub const MOST_SHARES: usize = 16_777_216;

/// Points of a log, in ascending order. Contracts see the list of them.
#[derive(Drop)]
pub struct FirstPoints {
    points: Vec<u64>,
}

impl Model for FirstPoints {
    ghost use Rattle.std.specs.Prelude.{ℕ, List};
    ghost use Rattle.std.specs.List.Sorted.{IsStrictlyIncreasing};

    ghost Value = { List ℕ };

    ghost view = { λ f. f.points.items };

    ghost invariant = { λ f. IsStrictlyIncreasing f.points.items };
}

/// The first of each kind of some points, among which is one of each.
fn firsts_among<'a, P: PointSet + Copy>(
    alloc: Global,
    log: &Log<'a, P>,
    points: &[u64],
) -> Result<Vec<u64>, AllocError>
    requires firsts { AreFirsts log.now points.now }
    requires ascend { IsStrictlyIncreasing points.now }
    ensures firsts { IfOk result (λ firsts. AreFirsts log.now firsts.items) }
    ensures ascend { IfOk result (λ firsts. IsStrictlyIncreasing firsts.items) }
    ensures apart { shares log.now.spaces points.now ≤ MOST_SHARES → IfOk result (λ firsts. (p q : ℕ)
        → Contains firsts.items p → Contains firsts.items q → AreAlike log.now p q → p ≡ q) }
{
    match kinds_of(alloc, log.tables().spaces(), points, MOST_SHARES)? {
        Some(kinds) => {
            let firsts = leads(alloc, &kinds.numbers, kinds.end, points)?;
            Ok(firsts)
        }
        None => {
            let firsts = Vec::from_slice(alloc, points)?;
            Ok(firsts)
        }
    }
}

impl FirstPoints {
    /// The first points of a log: the least one of each kind. Points that no space of the log tells apart are of one kind.
    ///
    /// Where the spaces have more than `MOST_SHARES` atoms together, the first points of all atoms are taken, of which some may be of one kind.
    pub fn of<'a, P: PointSet + Copy>(
        alloc: Global,
        log: &Log<'a, P>,
    ) -> Result<FirstPoints, Memory>
        ensures firsts { IfOk result (AreFirsts log.now) }
        ensures apart { atom_shares log.now ≤ MOST_SHARES → IfOk result (λ points. (p q : ℕ)
            → Contains points p → Contains points q → AreAlike log.now p q → p ≡ q) }
    {
        let atoms = Atoms::build(alloc, log.rects())?;
        let points = firsts_among(alloc, log, atoms.firsts())?;
        Ok(FirstPoints { points })
    }

    /// Those of the points that some requirement reads. What nobody reads is never judged, so a replay may leave the others out.
    ///
    /// Where the spaces that are read have more of the points together than `MOST_SHARES`, all are given.
    pub fn read_in<'a, P: PointSet + Copy>(
        &self,
        alloc: Global,
        log: &Log<'a, P>,
    ) -> Result<FirstPoints, Memory>
        requires { AreFirsts log.now self.now }
        ensures { IfOk result (AreReadFirsts log.now) }
    {
        let points = points_read(alloc, log, self.points.as_slice())?;
        Ok(FirstPoints { points })
    }

    /// The points, in ascending order.
    pub fn as_slice(&self) -> &[u64]
        ensures points { result.now ≡ self.now }
        ensures ascend { IsStrictlyIncreasing result.now }
    {
        self.points.as_slice()
    }
}
