//! What is asked for, or allowed.

ghost use Rattle.std.specs.Prelude.{◌≡◌, ◌==◌, ◌&&◌, ◌^◌, ◌<◌, not, [], All};
ghost use Rattle.std.specs.List.{list_all};
ghost use Rattle.std.specs.Option.{option_map_or};
ghost use Rattle.std.specs.List.Sorted.{IsStrictlyIncreasing};
ghost use Rattle.point_set.specs.Least.{IsLeastFrom, IsLeastGap, IsLeastOutside};
ghost use Rattle.vocabulary.specs.Prelude.{agree, meets};
ghost use Rattle.licences.specs.Claims.{claimed, conflict};
ghost use Rattle.licences.specs.Reach.{serves, serves_all};

use log_tables::is_in;
use point_set::PointSet;
use privilege::{Priv, agree, contains};
use std::marker::Model;

/// What a requirement asks for, or a privilege allows: these fields of a space in a tree, with a privilege.
#[derive(Clone, Copy)]
pub struct NumberedReq<'a> {
    /// Its number among others.
    pub number: u32,
    pub tree: u32,
    pub space: u32,
    pub fields: &'a [u32],
    pub access: Priv,
}

/// Some fields of the points of a space of a tree, and what is asked for, or allowed, there.
#[derive(Drop)]
pub struct Claim<'a, P: PointSet + Copy> {
    // Its number among others.
    number: u32,
    tree: u32,
    space: u32,
    // Without a set there are no points.
    set: Option<P>,
    fields: &'a [u32],
    access: Priv,
}

impl<'a, P: PointSet + Copy> Model for Claim<'a, P> {
    ghost use Rattle.std.specs.Prelude.{[]};
    ghost use Rattle.std.specs.Option.{option_map_or};
    ghost use Rattle.std.specs.List.Sorted.{IsStrictlyIncreasing};
    ghost use Rattle.licences.specs.Claims.{Claimed, claimed};

    ghost Value = { Claimed };

    ghost view = { λ c. claimed c.number c.tree c.space (option_map_or P.points c.set []) c.fields.now c.access };

    ghost invariant = { λ c. IsStrictlyIncreasing c.fields.now };
}

/// Whether two lists have a field in common, by a binary search for each field of the first.
fn fields_meet(ours: &[u32], theirs: &[u32]) -> bool
    requires { IsStrictlyIncreasing theirs.now }
    ensures { result ≡ meets ours.now theirs.now }
{
    ours.iter().any(|field| is_in(theirs, *field))
}

/// Whether two sets have a point in common.
#[tactic(auto, using(crate::proofs::Meeting::meets_told))]
fn sets_meet<P: PointSet>(ours: &P, theirs: &P) -> bool
    ensures { result ≡ meets (P.points ours.now) (P.points theirs.now) }
{
    ours.meets(theirs)
}

/// Whether two sets have a point in common, where there are both.
#[tactic(auto, using(crate::proofs::Meeting::meets_none))]
fn points_meet<P: PointSet>(ours: &Option<P>, theirs: &Option<P>) -> bool
    ensures { result ≡ meets (option_map_or P.points ours.now []) (option_map_or P.points theirs.now []) }
{
    let Some(ours) = ours else {
        return false;
    };
    match theirs {
        Some(theirs) => sets_meet(ours, theirs),
        None => false,
    }
}

/// Each point of a set is a `u64`. There is nothing to do.
#[tactic(auto, using(crate::proofs::Meeting::bounded_none))]
fn are_bounded<P: PointSet>(set: &Option<P>)
    ensures { All (λ x. x < 2 ^ 64) (option_map_or P.points set.now []) }
{
    let _set = set;
}

/// The least point from a number on, where there is a set.
fn next_in<P: PointSet>(set: &Option<P>, from: u64) -> Option<u64>
    ensures { IsLeastFrom (option_map_or P.points set.now []) from result }
{
    match set {
        Some(set) => set.next_from(from),
        None => None,
    }
}

/// The least number from this one on that is no point, where there is a set.
fn gap_in<P: PointSet>(set: &Option<P>, from: u64) -> Option<u64>
    ensures { IsLeastGap (option_map_or P.points set.now []) from result }
{
    match set {
        Some(set) => set.gap_from(from),
        None => Some(from),
    }
}

/// The least point of a set that another does not have, where there are both: without another it is the first point.
fn outside_in<P: PointSet>(ours: &Option<P>, theirs: &Option<P>) -> Option<u64>
    ensures { IsLeastOutside (option_map_or P.points ours.now []) (option_map_or P.points theirs.now []) result }
{
    let Some(ours) = ours else {
        return None;
    };
    match theirs {
        Some(theirs) => ours.outside(theirs),
        None => ours.first(),
    }
}

/// Whether a claim serves each of some fields of another.
fn serves_each<P: PointSet + Copy>(one: &Claim<'_, P>, asked: &Claim<'_, P>, fields: &[u32]) -> bool
    ensures { result ≡ list_all (serves one.now asked.now) fields.now }
{
    fields.iter().all(|field| one.serves(asked, *field))
}

impl<'a, P: PointSet + Copy> Claim<'a, P> {
    /// What is asked for at the points of this set, that of its space, or at no point.
    pub fn new(asked: &NumberedReq<'a>, set: Option<P>) -> Claim<'a, P>
        requires { IsStrictlyIncreasing asked.now.fields.now }
        ensures { result ≡ claimed asked.now.number asked.now.tree asked.now.space
            (option_map_or P.points set []) asked.now.fields.now asked.now.access }
    {
        Claim {
            number: asked.number,
            tree: asked.tree,
            space: asked.space,
            set,
            fields: asked.fields,
            access: asked.access,
        }
    }

    /// Its number.
    pub(crate) fn number(&self) -> u32
        ensures { result ≡ self.now.number }
    {
        self.number
    }

    /// The tree.
    pub(crate) fn tree(&self) -> u32
        ensures { result ≡ self.now.tree }
    {
        self.tree
    }

    /// The id of the space.
    pub fn space(&self) -> u32
        ensures { result ≡ self.now.space }
    {
        self.space
    }

    /// The privilege.
    pub fn access(&self) -> Priv
        ensures { result ≡ self.now.access }
    {
        self.access
    }

    /// The fields.
    pub fn fields(&self) -> &[u32]
        ensures { result.now ≡ self.now.fields }
    {
        self.fields
    }

    /// Each point is a `u64`. There is nothing to do.
    pub(crate) fn points_are_bounded(&self)
        ensures { All (λ x. x < 2 ^ 64) self.now.points }
    {
        are_bounded(&self.set)
    }

    /// The least point from this number on.
    pub(crate) fn next_from(&self, from: u64) -> Option<u64>
        ensures { IsLeastFrom self.now.points from result }
    {
        next_in(&self.set, from)
    }

    /// The least number from this one on that is no point.
    pub(crate) fn gap_from(&self, from: u64) -> Option<u64>
        ensures { IsLeastGap self.now.points from result }
    {
        gap_in(&self.set, from)
    }

    /// The least point that another does not have. It is found rectangle by rectangle, where the sets are rectangles.
    pub(crate) fn outside(&self, other: &Claim<'_, P>) -> Option<u64>
        ensures { IsLeastOutside self.now.points other.now.points result }
    {
        outside_in(&self.set, &other.set)
    }

    /// Whether it allows what another asks for at a field, wherever it has the point.
    #[tactic(auto, using(crate::proofs::Meeting::in_order))]
    pub(crate) fn serves(&self, asked: &Claim<'_, P>, field: u32) -> bool
        ensures { result ≡ serves self.now asked.now field }
    {
        self.tree == asked.tree && contains(self.access, asked.access) && is_in(self.fields, field)
    }

    /// Whether it is a claim to the same space as another, and serves all its fields.
    pub(crate) fn serves_all(&self, asked: &Claim<'_, P>) -> bool
        ensures { result ≡ serves_all self.now asked.now }
    {
        self.space == asked.space && serves_each(self, asked, asked.fields)
    }

    /// Whether the two are of one tree, and their privileges do not agree.
    pub fn disagrees(&self, other: &Claim<'_, P>) -> bool
        ensures { result ≡ ((self.now.tree == other.now.tree) && not (agree self.now.access other.now.access)) }
    {
        self.tree == other.tree && !agree(self.access, other.access)
    }

    /// Whether the two have a field in common.
    pub fn has_common_field(&self, other: &Claim<'_, P>) -> bool
        ensures { result ≡ meets self.now.fields other.now.fields }
    {
        fields_meet(self.fields, other.fields)
    }

    /// Whether the two have a point in common.
    pub fn has_common_point(&self, other: &Claim<'_, P>) -> bool
        ensures { result ≡ meets self.now.points other.now.points }
    {
        points_meet(&self.set, &other.set)
    }

    /// Whether the two share a place, and their privileges do not agree.
    #[tactic(auto, using(crate::proofs::Meeting::turned))]
    pub(crate) fn conflicts(&self, other: &Claim<'_, P>) -> bool
        ensures { result ≡ conflict self.now other.now }
    {
        self.disagrees(other) && self.has_common_field(other) && self.has_common_point(other)
    }
}
