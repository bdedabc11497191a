//! What a requirement asks for.

ghost use Rattle.std.specs.Prelude.{◌≡◌, true, ℕ, ◌≤◌, Contains, [], is_some, None, if◌then◌else◌};
ghost use Rattle.std.specs.Option.{option_map_or};
ghost use Rattle.std.specs.List.Sorted.{IsStrictlyIncreasing};
ghost use Rattle.vocabulary.specs.Prelude.{is_free, kind_of};
ghost use Rattle.privilege.specs.declared.kinds.Kind.TheVariants as kinds;
ghost use Rattle.item_uses.specs.Usages.{usage};
ghost use Rattle.item_uses.specs.Representatives.{without_points};
ghost use Rattle.item_uses.specs.Spans.{IsWithin};
ghost use Rattle.item_uses.specs.Sharing.{least_shared, shared_place, shared_kind, kind_place};

use crate::accesses::Accesses;
use crate::between::Interference;
use crate::fields::{first_field, last_field, shared_field};
use crate::span::Span;
use point_set::PointSet;
use privilege::{Coherence, Kind, Priv, kind};
use semantics::Place;
use std::hash::{DefaultHasher, Hash, Hasher};
use std::marker::Model;

/// What a requirement or a fill asks for: these fields of a space in a tree, with a privilege and a coherence.
#[derive(Clone, Copy)]
pub(crate) struct ReqParts<'a> {
    pub(crate) tree: u32,
    pub(crate) space: u32,
    pub(crate) fields: &'a [u32],
    pub(crate) access: Priv,
    pub(crate) coherence: Coherence,
}

/// A requirement with its points, or a fill, which writes, is exclusive, and sees nothing of the old contents.
#[derive(Drop)]
pub struct Use<'a, P: PointSet + Copy> {
    tree: u32,
    space: u32,
    // Without a set there are no points.
    set: Option<P>,
    fields: &'a [u32],
    access: Priv,
    coherence: Coherence,
    span: Span,
}

impl<'a, P: PointSet + Copy> Model for Use<'a, P> {
    ghost use Rattle.std.specs.Prelude.{[]};
    ghost use Rattle.std.specs.Option.{option_map_or};
    ghost use Rattle.std.specs.List.Sorted.{IsStrictlyIncreasing};
    ghost use Rattle.item_uses.specs.Usages.{Usage, usage};
    ghost use Rattle.item_uses.specs.Spans.{IsWithin};

    ghost Value = { Usage };

    ghost view = { λ u. usage u.tree u.space (option_map_or P.points u.set []) u.fields.now u.access u.coherence };

    ghost invariant = { λ u. IsStrictlyIncreasing u.fields.now
        × IsWithin u.span (usage u.tree u.space (option_map_or P.points u.set []) u.fields.now u.access u.coherence) };
}

/// A point of a set that none is less than.
fn first_of<P: PointSet>(set: &P) -> u64
    ensures { (x : ℕ) → Contains (P.points set.now) x → result ≤ x }
{
    match set.first() {
        Some(first) => first,
        None => u64::MAX,
    }
}

/// A point of a set that none is greater than.
fn last_of<P: PointSet>(set: &P) -> u64
    ensures { (x : ℕ) → Contains (P.points set.now) x → x ≤ result }
{
    match set.last() {
        Some(last) => last,
        None => 0,
    }
}

/// A first and a last number: each point of the set, where there is a set, is between them.
fn ends_of<P: PointSet>(set: &Option<P>) -> (u64, u64)
    ensures { (x : ℕ) → Contains (option_map_or P.points set.now []) x → (result.0 ≤ x) × (x ≤ result.1) }
{
    match set {
        Some(set) => (first_of(set), last_of(set)),
        None => (u64::MAX, 0),
    }
}

/// The least point of two sets.
#[tactic(auto, using(crate::proofs::Shared::shared_is))]
fn shared_by_sets<P: PointSet>(ours: &P, theirs: &P) -> Option<u64>
    ensures { result ≡ least_shared (P.points ours.now) (P.points theirs.now) }
{
    ours.first_common(theirs)
}

/// The least point of two sets, where there are both.
#[tactic(auto, using(crate::proofs::Shared::none_shared))]
fn shared_point<P: PointSet>(ours: &Option<P>, theirs: &Option<P>) -> Option<u64>
    ensures { result ≡ least_shared (option_map_or P.points ours.now []) (option_map_or P.points theirs.now []) }
{
    let Some(ours) = ours else {
        return None;
    };
    match theirs {
        Some(theirs) => shared_by_sets(ours, theirs),
        None => None,
    }
}

/// A number of its own for each privilege.
fn access_number(access: Priv) -> u64 {
    match access {
        Priv::Ro => 0,
        Priv::Rw => 1,
        Priv::Wd => 2,
        Priv::Red(operator) => 3 + operator as u64,
    }
}

impl<'a, P: PointSet + Copy> Use<'a, P> {
    /// What is asked for at the points of this set, those of the space, or at no point.
    pub(crate) fn new(asked: &ReqParts<'a>, set: Option<P>) -> Use<'a, P>
        requires { IsStrictlyIncreasing asked.now.fields.now }
        ensures { result ≡ usage asked.now.tree asked.now.space (option_map_or P.points set [])
            asked.now.fields.now asked.now.access asked.now.coherence }
    {
        let (first_point, last_point) = ends_of(&set);
        let span = Span {
            first_tree: asked.tree,
            last_tree: asked.tree,
            first_point,
            last_point,
            first_field: first_field(asked.fields),
            last_field: last_field(asked.fields),
            accesses: Accesses::of(asked.access),
        };
        Use {
            tree: asked.tree,
            space: asked.space,
            set,
            fields: asked.fields,
            access: asked.access,
            coherence: asked.coherence,
            span,
        }
    }

    /// Whether another requirement is the same, but for its points.
    pub(crate) fn is_alike(&self, other: &Use<'a, P>) -> bool
        ensures { result ≡ true → without_points self.now ≡ without_points other.now }
    {
        self.tree == other.tree
            && self.space == other.space
            && self.access == other.access
            && self.coherence == other.coherence
            && self.fields == other.fields
    }

    /// Feeds a hasher with all but the points.
    pub(crate) fn feed(&self, hasher: &mut DefaultHasher) {
        hasher.write_u32(self.tree);
        hasher.write_u32(self.space);
        hasher.write_u64(access_number(self.access));
        hasher.write_u8((self.coherence == Coherence::Exclusive) as u8);
        self.fields.hash(hasher);
    }

    /// Bounds on what it asks for.
    pub(crate) fn span(&self) -> Span
        ensures { IsWithin result self.now }
    {
        self.span
    }

    /// The least place of both.
    fn shared(&self, other: &Use<'a, P>) -> Option<Place>
        ensures { result ≡ shared_place self.now other.now }
    {
        if self.tree != other.tree {
            return None;
        }
        if !self.span.overlaps(&other.span) {
            return None;
        }
        let point = shared_point(&self.set, &other.set)?;
        let field = shared_field(self.fields, other.fields)?;
        Some(Place {
            tree: self.tree,
            point,
            field,
        })
    }

    /// How the two interfere.
    pub fn interference(&self, other: &Use<'a, P>) -> Interference
        ensures kind { result.kind ≡ shared_kind self.now other.now }
        ensures place { result.place ≡ kind_place self.now other.now }
    {
        let kind = kind(self.access, self.coherence, other.access, other.coherence);
        if kind == Kind::Free {
            return Interference::none();
        }
        match self.shared(other) {
            Some(place) => Interference {
                kind,
                place: Some(place),
            },
            None => Interference::none(),
        }
    }
}
