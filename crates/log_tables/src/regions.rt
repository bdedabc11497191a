//! What is declared of regions, as it is looked up.

ghost use Rattle.std.specs.Prelude.{◌≡◌, ◌++◌, ◌∷◌, [], OnOk, OnErr, map};
ghost use Rattle.std.specs.Option.{option_map};
ghost use Rattle.log_tables.specs.Regions.{space_of, part_of, declared_points, space_points, IsSetOf, whole_of, parent_of};
ghost use Rattle.log_tables.specs.Views.{space_seen};

use crate::entries::{ById, BySpace, ByStep, Space};
use crate::rows::Rows;
use crate::two_rows::TwoRows;
use point_set::PointSet;
use semantics::{Part, Sub};
use std::alloc::{AllocError, Global};
use std::marker::Model;

/// Declared spaces, partitions and subspaces, as they grow. Contracts see them as three lists. A look-up takes constant time, and finds the first of several.
#[derive(Drop)]
pub struct Decls<P: PointSet> {
    spaces: Rows<ById, Space<P>>,
    parts: TwoRows<ById, BySpace, Part>,
    subs: TwoRows<ByStep, BySpace, Sub>,
}

impl<P: PointSet> Model for Decls<P> {
    ghost use Rattle.std.specs.Prelude.{map};
    ghost use Rattle.log_tables.specs.Regions.{Regions};
    ghost use Rattle.log_tables.specs.Views.{space_seen};

    ghost Value = { Regions };

    ghost view = { λ d. record { spaces = map (space_seen P.points) d.spaces; parts = d.parts; subs = d.subs } };
}

impl<P: PointSet> Decls<P> {
    /// Nothing is declared.
    pub fn new(alloc: Global) -> Decls<P>
        ensures { result ≡ record { spaces = []; parts = []; subs = [] } }
    {
        Decls {
            spaces: Rows::new(alloc),
            parts: TwoRows::new(alloc),
            subs: TwoRows::new(alloc),
        }
    }

    /// One space more.
    pub fn add_space(&mut self, space: Space<P>) -> Result<(), AllocError>
    where
        P: Drop,
        ensures ok { OnOk result (self.new ≡ record self.old {
          spaces = self.old.spaces
              ++ space_seen P.points space ∷ [];
        }) }
        ensures err { OnErr result (self.new ≡ self.old) }
    {
        self.spaces.push(space)
    }

    /// One partition more.
    pub fn add_part(&mut self, part: Part) -> Result<(), AllocError>
        ensures ok { OnOk result (self.new ≡ record self.old { parts = self.old.parts ++ part ∷ [] }) }
        ensures err { OnErr result (self.new ≡ self.old) }
    {
        self.parts.push(part)
    }

    /// One subspace more.
    pub fn add_sub(&mut self, sub: Sub) -> Result<(), AllocError>
        ensures ok { OnOk result (self.new ≡ record self.old { subs = self.old.subs ++ sub ∷ [] }) }
        ensures err { OnErr result (self.new ≡ self.old) }
    {
        self.subs.push(sub)
    }

    /// The spaces, by their ids.
    pub fn spaces(&self) -> &Rows<ById, Space<P>>
        ensures { map (space_seen P.points) result.now ≡ self.now.spaces }
    {
        &self.spaces
    }

    /// The partitions, by their ids and by the spaces that they cut.
    pub fn parts(&self) -> &TwoRows<ById, BySpace, Part>
        ensures { result.now ≡ self.now.parts }
    {
        &self.parts
    }

    /// The subspaces, by their steps and by their spaces.
    pub fn subs(&self) -> &TwoRows<ByStep, BySpace, Sub>
        ensures { result.now ≡ self.now.subs }
    {
        &self.subs
    }

    /// The space with this id.
    pub fn space(&self, id: u32) -> Option<&Space<P>>
        ensures { option_map (λ s. space_seen P.points s.now) result ≡ space_of self.now id }
    {
        self.spaces.get(id)
    }

    /// The set of a space.
    pub fn set(&self, id: u32) -> Option<&P>
        ensures value { option_map (λ s. P.points s.now) result ≡ declared_points self.now id }
        ensures points { IsSetOf P.points result (space_points self.now id) }
    {
        match self.space(id) {
            Some(space) => Some(&space.set),
            None => None,
        }
    }

    /// The partition with this id.
    pub fn part(&self, id: u32) -> Option<Part>
        ensures { result ≡ part_of self.now id }
    {
        self.parts.rows().get(id).copied()
    }

    /// The space that a partition cuts.
    pub fn whole(&self, part: u32) -> Option<u32>
        ensures { result ≡ whole_of self.now part }
    {
        Some(self.part(part)?.space)
    }

    /// The space of which this one is a subspace.
    pub fn parent(&self, space: u32) -> Option<u32>
        ensures { result ≡ parent_of self.now space }
    {
        let sub = self.subs.also_get(space)?;
        self.whole(sub.part)
    }
}
