//! Where none of some claims allows what another asks for.

ghost use Rattle.std.specs.Prelude.{◌≡◌, ◌∷◌, [], All, Some};
ghost use Rattle.std.specs.List.{list_any};
ghost use Rattle.point_set.specs.Least.{IsLeast};
ghost use Rattle.licences.specs.Claims.{AreOfSpaces, first_refused, lesser_place, refused};
ghost use Rattle.licences.specs.Reach.{IsDoubt, IsLeastAmong, IsLeastAt, IsRefusedAt, Reaches, allows_at, is_before, serves_all};

use crate::claim::Claim;
use point_set::PointSet;
use semantics::Place;

/// How far a claim allows what is asked for without a gap, from a point on.
fn end_by<P: PointSet + Copy>(
    one: &Claim<'_, P>,
    asked: &Claim<'_, P>,
    field: u32,
    from: u64,
) -> Option<u64>
    ensures { Reaches (allows_at (one.now ∷ []) asked.now field) from result }
{
    if one.serves(asked, field) {
        one.gap_from(from)
    } else {
        Some(from)
    }
}

/// How far the first of some claims that allows what is asked for at a point does so from there on, and its place.
fn first_reach<P: PointSet + Copy>(
    all: &[Claim<'_, P>],
    asked: &Claim<'_, P>,
    field: u32,
    from: u64,
) -> (Option<u64>, usize)
    ensures { Reaches (allows_at all.now asked.now field) from result.0 }
{
    for k in 0..all.len() {
        let end = end_by(&all[k], asked, field, from);
        if end != Some(from) {
            return (end, k);
        }
    }
    (Some(from), 0)
}

/// How far the claim at a place allows what is asked for, from a point on.
fn reach_by<P: PointSet + Copy>(
    all: &[Claim<'_, P>],
    place: usize,
    asked: &Claim<'_, P>,
    field: u32,
    from: u64,
) -> Option<u64>
    ensures { (result ≡ Some from → ⊥) → Reaches (allows_at all.now asked.now field) from result }
{
    match all.get(place) {
        Some(one) => end_by(one, asked, field, from),
        None => Some(from),
    }
}

/// The places of the two claims that reached last, the later one in front.
#[derive(Clone, Copy)]
struct Recent {
    last: usize,
    before: usize,
}

impl Recent {
    /// In the order in which they are asked. A claim does not reach beyond its end: where what is asked for goes on at that end, the other one is asked first.
    fn in_turn(self, goes_on: bool) -> Recent {
        if goes_on {
            Recent {
                last: self.before,
                before: self.last,
            }
        } else {
            self
        }
    }

    /// With the one that reached now.
    fn with(self, by: usize) -> Recent {
        if by == self.last {
            self
        } else {
            Recent {
                last: by,
                before: self.last,
            }
        }
    }
}

/// How far what is asked for is allowed from a point on by one claim, and the place of that one. The two that allowed it before are asked first.
fn reach<P: PointSet + Copy>(
    all: &[Claim<'_, P>],
    asked: &Claim<'_, P>,
    field: u32,
    from: u64,
    recent: Recent,
) -> (Option<u64>, usize)
    ensures { Reaches (allows_at all.now asked.now field) from result.0 }
{
    let end = reach_by(all, recent.last, asked, field, from);
    if end != Some(from) {
        return (end, recent.last);
    }
    let end = reach_by(all, recent.before, asked, field, from);
    if end != Some(from) {
        return (end, recent.before);
    }
    first_reach(all, asked, field, from)
}

/// A point below which a claim is not refused at a field, or none if it is refused nowhere: the least one that the first claim lacks which allows some of what is asked for. So whatever that one allows is passed over at once, however many columns it has.
fn first_doubt<P: PointSet + Copy>(
    all: &[Claim<'_, P>],
    asked: &Claim<'_, P>,
    field: u32,
) -> Option<u64>
    ensures { IsDoubt all.now asked.now field result }
{
    let first = asked.next_from(0);
    for one in all {
        if one.serves(asked, field) {
            let point = asked.outside(one);
            if point != first {
                return point;
            }
        }
    }
    first
}

/// The least point at which a claim is refused at a field, where it is not below a given one. Each step passes over a run of what is allowed.
fn refused_from<P: PointSet + Copy>(
    all: &[Claim<'_, P>],
    asked: &Claim<'_, P>,
    field: u32,
    doubt: u64,
) -> Option<u64>
    requires { IsDoubt all.now asked.now field (Some doubt) }
    ensures { IsLeast (IsRefusedAt all.now asked.now field) result }
{
    asked.points_are_bounded();
    let mut from = doubt;
    let mut recent = Recent { last: 0, before: 0 };
    loop {
        let Some(point) = asked.next_from(from) else {
            return None;
        };
        let (reached, by) = reach(all, asked, field, point, recent.in_turn(point == from));
        let Some(end) = reached else {
            return None;
        };
        if end == point {
            return Some(point);
        }
        from = end;
        recent = recent.with(by);
    }
}

/// The least point at which a claim is refused at a field.
fn refused_point<P: PointSet + Copy>(
    all: &[Claim<'_, P>],
    asked: &Claim<'_, P>,
    field: u32,
) -> Option<u64>
    ensures { IsLeast (IsRefusedAt all.now asked.now field) result }
{
    match first_doubt(all, asked, field) {
        Some(doubt) => refused_from(all, asked, field, doubt),
        None => None,
    }
}

/// The least place at which a claim is refused at a field.
fn refused_at<P: PointSet + Copy>(
    all: &[Claim<'_, P>],
    asked: &Claim<'_, P>,
    field: u32,
) -> Option<Place>
    ensures { IsLeastAt all.now asked.now field result }
{
    match refused_point(all, asked, field) {
        Some(point) => Some(Place {
            tree: asked.tree(),
            point,
            field,
        }),
        None => None,
    }
}

/// Whether one place comes before another.
fn is_before(p: Place, q: Place) -> bool
    ensures { result ≡ is_before p q }
{
    p.tree < q.tree
        || (p.tree == q.tree && (p.point < q.point || (p.point == q.point && p.field < q.field)))
}

/// The lesser of two places.
fn lesser_of(p: Option<Place>, q: Option<Place>) -> Option<Place>
    ensures { result ≡ lesser_place p q }
{
    match (p, q) {
        (Some(p), Some(q)) => Some(if is_before(q, p) { q } else { p }),
        (None, q) => q,
        (p, None) => p,
    }
}

/// Whether one of some claims is to the same space as another, and serves all its fields.
fn is_allowed_at_once<P: PointSet + Copy>(all: &[Claim<'_, P>], asked: &Claim<'_, P>) -> bool
    ensures { result ≡ list_any (λ one. serves_all one asked.now) all.now }
{
    all.iter().any(|one| one.serves_all(asked))
}

/// The least place of a claim at which none of these allows what it asks for, field by field.
fn refused_among<P: PointSet + Copy>(all: &[Claim<'_, P>], asked: &Claim<'_, P>) -> Option<Place>
    ensures { result ≡ refused all.now asked.now }
{
    let mut least = None;
    for field in asked.fields() {
        least = lesser_of(least, refused_at(all, asked, *field));
    }
    least
}

/// The least place of a claim at which none of these allows what it asks for. Claims to the same space are asked first, since their points need no look.
#[tactic(auto, using(crate::proofs::Least::allowed_at_once))]
pub fn refused<P: PointSet + Copy>(all: &[Claim<'_, P>], asked: &Claim<'_, P>) -> Option<Place>
    requires { AreOfSpaces all.now asked.now }
    ensures { result ≡ refused all.now asked.now }
{
    if is_allowed_at_once(all, asked) {
        None
    } else {
        refused_among(all, asked)
    }
}

/// The number of the first of some claims for which none of these allows all that it asks for, and the least place at which none does.
pub fn first_refused<P: PointSet + Copy>(
    all: &[Claim<'_, P>],
    own: &[Claim<'_, P>],
) -> Option<(u32, Place)>
    requires { All (AreOfSpaces all.now) own.now }
    ensures { result ≡ first_refused all.now own.now }
{
    for one in own {
        if let Some(place) = refused(all, one) {
            return Some((one.number(), place));
        }
    }
    None
}
