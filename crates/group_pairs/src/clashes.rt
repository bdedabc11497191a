//! Whether claims conflict, by the table of spaces that share points.

ghost use Rattle.std.specs.Prelude.{◌≡◌};
ghost use Rattle.std.specs.List.{list_any};
ghost use Rattle.vocabulary.specs.Prelude.{meets};
ghost use Rattle.licences.specs.Claims.{conflict};
ghost use Rattle.group_pairs.specs.Outlines.{ArePlaced, IsPlaced};
ghost use Rattle.group_pairs.specs.Sides.{clash};

use crate::ground::Ground;
use licences::Claim;
use point_set::PointSet;

/// Whether two claims have a point in common. Their sets are asked only where a space has no site.
#[tactic(auto, using(crate::proofs::Tables::met))]
fn points_meet<P: PointSet + Copy>(
    ground: &Ground<'_, '_, P>,
    ours: (&Claim<'_, P>, Option<usize>),
    theirs: (&Claim<'_, P>, Option<usize>),
) -> bool
    requires ours { IsPlaced ground.now ours.0.now ours.1 }
    requires theirs { IsPlaced ground.now theirs.0.now theirs.1 }
    ensures { result ≡ meets ours.entry.0.now.points theirs.entry.0.now.points }
{
    match ground.share(ours.1, theirs.1) {
        Some(shared) => shared,
        None => ours.0.has_common_point(theirs.0),
    }
}

/// Whether a claim conflicts with another.
fn conflicts<P: PointSet + Copy>(
    ground: &Ground<'_, '_, P>,
    ours: (&Claim<'_, P>, Option<usize>),
    theirs: (&Claim<'_, P>, Option<usize>),
) -> bool
    requires ours { IsPlaced ground.now ours.0.now ours.1 }
    requires theirs { IsPlaced ground.now theirs.0.now theirs.1 }
    ensures { result ≡ conflict ours.entry.0.now theirs.entry.0.now }
{
    ours.0.disagrees(theirs.0)
        && points_meet(ground, ours, theirs)
        && ours.0.has_common_field(theirs.0)
}

/// Whether a claim conflicts with one of some others.
fn conflicts_with<P: PointSet + Copy>(
    ground: &Ground<'_, '_, P>,
    one: (&Claim<'_, P>, Option<usize>),
    claims: &[Claim<'_, P>],
    places: &[Option<usize>],
) -> bool
    requires one { IsPlaced ground.now one.0.now one.1 }
    requires all { ArePlaced ground.now claims.now places.now }
    ensures { result ≡ list_any (conflict one.entry.0.now) claims.now }
{
    for k in 0..claims.len() {
        if conflicts(ground, one, (&claims[k], places[k])) {
            return true;
        }
    }
    false
}

/// Whether some claim of the one list conflicts with one of the other.
pub(crate) fn clash<P: PointSet + Copy>(
    ground: &Ground<'_, '_, P>,
    ours: &[Claim<'_, P>],
    our_places: &[Option<usize>],
    theirs: &[Claim<'_, P>],
    their_places: &[Option<usize>],
) -> bool
    requires ours { ArePlaced ground.now ours.now our_places.now }
    requires theirs { ArePlaced ground.now theirs.now their_places.now }
    ensures { result ≡ clash ours.now theirs.now }
{
    for k in 0..ours.len() {
        if conflicts_with(ground, (&ours[k], our_places[k]), theirs, their_places) {
            return true;
        }
    }
    false
}
