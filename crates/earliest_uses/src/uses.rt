//! The earliest uses of each place.

ghost use Rattle.std.specs.Prelude.{◌≡◌, ◌∷◌, [], ◌-◌, ◌^◌, IfOk};
ghost use Rattle.vocabulary.specs.Prelude.{Place};
ghost use Rattle.earliest_uses.specs.declared.serial_use.SerialUse.{SerialUse};
ghost use Rattle.earliest_uses.specs.Earlier.{bound};
ghost use Rattle.earliest_uses.specs.Visits.{IsOver, IsVisit, bound_at};

use crate::place_uses::PlaceUses;
use crate::serial_use::SerialUse;
use point_set::{PointSet, points_in};
use semantics::Place;
use std::alloc::{AllocError, Global};
use std::collections::HashMap;

/// The earliest of the uses of each place, so far as they were visited.
#[derive(Drop)]
pub struct EarliestUses {
    places: HashMap<Place, PlaceUses>,
}

impl EarliestUses {
    /// No place has a use.
    pub fn new(alloc: Global) -> EarliestUses
        ensures { (p : Place) (u : SerialUse) → bound_at result p u ≡ 2 ^ 64 - 1 }
    {
        EarliestUses {
            places: HashMap::new(alloc),
        }
    }

    /// The earliest uses of a place.
    fn uses_at(&self, at: Place) -> PlaceUses
        ensures { (u : SerialUse) → bound result u ≡ bound_at self.now at u }
    {
        match self.places.get(&at) {
            Some(uses) => *uses,
            None => PlaceUses::none(),
        }
    }

    /// One use more of a place. It gives a serial position: no use that was there, and may not change places with this one, is earlier.
    fn visit(&mut self, at: Place, one: SerialUse) -> Result<usize, AllocError>
        ensures { IfOk result (IsVisit self.old self.new (λ p. p ≡ at) one) }
    {
        let uses = self.uses_at(at);
        self.places.insert(at, uses.with(one))?;
        Ok(uses.bound(one))
    }

    /// One use more of some fields of a point.
    fn visit_point(
        &mut self,
        tree: u32,
        point: u64,
        fields: &[u32],
        one: SerialUse,
    ) -> Result<usize, AllocError>
        ensures { IfOk result (IsVisit self.old self.new (IsOver tree (point ∷ []) fields.now) one) }
    {
        let mut earliest = usize::MAX;
        for field in fields {
            let at = Place {
                tree,
                point,
                field: *field,
            };
            let here = self.visit(at, one)?;
            earliest = here.min(earliest);
        }
        Ok(earliest)
    }

    /// One use more of some fields of the points of a set. It gives a serial position: no use that was at some place of these, and may not change places with this one, is earlier.
    #[tactic(auto, using(crate::proofs::Visiting::visited_all))]
    pub fn visit_all<P: PointSet>(
        &mut self,
        tree: u32,
        set: &P,
        fields: &[u32],
        one: SerialUse,
    ) -> Result<usize, AllocError>
        ensures { IfOk result (IsVisit self.old self.new (IsOver tree (P.points set.now) fields.now) one) }
    {
        let mut earliest = usize::MAX;
        for point in points_in(set) {
            let here = self.visit_point(tree, point, fields, one)?;
            earliest = here.min(earliest);
        }
        Ok(earliest)
    }
}
