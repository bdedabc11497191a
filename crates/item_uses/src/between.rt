//! How two requirements, or two lists of them, interfere.

ghost use Rattle.std.specs.Prelude.{◌≡◌, map, None};
ghost use Rattle.std.specs.List.{filter_map};
ghost use Rattle.vocabulary.specs.Prelude.{strongest, least_of, comes_first, stronger};
ghost use Rattle.privilege.specs.declared.kinds.Kind.TheVariants as kinds;
ghost use Rattle.item_uses.specs.Sharing.{shared_kind, kind_place, kind_between, place_between, lesser_place};

use crate::usage::Use;
use point_set::PointSet;
use privilege::Kind;
use semantics::Place;

/// How two requirements, or two lists of them, interfere: the strongest kind, and the least place at which they do. The kind there need not be the strongest.
#[derive(Clone, Copy, PartialEq, Eq)]
pub struct Interference {
    pub kind: Kind,
    /// `None` exactly where the kind is `Free`.
    pub place: Option<Place>,
}

/// The stronger of two kinds.
fn stronger_of(j: Kind, k: Kind) -> Kind
    ensures { result ≡ stronger j k }
{
    match (j, k) {
        (Kind::Before, _) | (_, Kind::Before) => Kind::Before,
        (Kind::Turn, _) | (_, Kind::Turn) => Kind::Turn,
        _ => Kind::Free,
    }
}

/// Whether one place comes before another.
fn is_first(p: Place, q: Place) -> bool
    ensures { result ≡ comes_first (p.tree, p.point, p.field) (q.tree, q.point, q.field) }
{
    p.tree < q.tree
        || (p.tree == q.tree && (p.point < q.point || (p.point == q.point && p.field < q.field)))
}

/// The lesser of two places.
fn lesser_of(p: Option<Place>, q: Option<Place>) -> Option<Place>
    ensures { result ≡ lesser_place p q }
{
    match (p, q) {
        (Some(p), Some(q)) => Some(if is_first(q, p) { q } else { p }),
        (None, q) => q,
        (p, None) => p,
    }
}

impl Interference {
    /// There is none.
    pub(crate) fn none() -> Interference
        ensures kind { result.kind ≡ kinds.Free }
        ensures place { result.place ≡ None }
    {
        Interference {
            kind: Kind::Free,
            place: None,
        }
    }

    /// What is known of both together.
    fn join(self, other: Interference) -> Interference
        ensures kind { result.kind ≡ stronger self.kind other.kind }
        ensures place { result.place ≡ lesser_place self.place other.place }
    {
        Interference {
            kind: stronger_of(self.kind, other.kind),
            place: lesser_of(self.place, other.place),
        }
    }
}

/// How a requirement and a list of them interfere.
fn interference_with_list<'a, P: PointSet + Copy>(
    ours: &Use<'a, P>,
    theirs: &[Use<'a, P>],
) -> Interference
    ensures kind { result.kind ≡ strongest (map (shared_kind ours.now) theirs.now) }
    ensures place { result.place ≡ least_of (filter_map (kind_place ours.now) theirs.now) }
{
    let mut so_far = Interference::none();
    for one in theirs {
        so_far = so_far.join(ours.interference(one));
    }
    so_far
}

/// How two lists of requirements interfere.
pub(crate) fn interference_of_lists<'a, P: PointSet + Copy>(
    ours: &[Use<'a, P>],
    theirs: &[Use<'a, P>],
) -> Interference
    ensures kind { result.kind ≡ kind_between ours.now theirs.now }
    ensures place { result.place ≡ place_between ours.now theirs.now }
{
    let mut so_far = Interference::none();
    for one in ours {
        so_far = so_far.join(interference_with_list(one, theirs));
    }
    so_far
}
