//! Whether claims may be held side by side.

ghost use Rattle.std.specs.Prelude.{◌≡◌, not};
ghost use Rattle.std.specs.List.{list_any};
ghost use Rattle.licences.specs.Claims.{conflict};

use crate::claim::Claim;
use point_set::PointSet;

/// Whether a claim conflicts with one of these.
fn conflicts_with<P: PointSet + Copy>(one: &Claim<'_, P>, all: &[Claim<'_, P>]) -> bool
    ensures { result ≡ list_any (conflict one.now) all.now }
{
    all.iter().any(|other| one.conflicts(other))
}

/// Whether some claim of the one list conflicts with one of the other.
fn some_conflict<P: PointSet + Copy>(ours: &[Claim<'_, P>], theirs: &[Claim<'_, P>]) -> bool
    ensures { result ≡ list_any (λ c. list_any (conflict c) theirs.now) ours.now }
{
    ours.iter().any(|one| conflicts_with(one, theirs))
}

/// Whether no claim of the one list conflicts with one of the other.
pub fn are_free<P: PointSet + Copy>(ours: &[Claim<'_, P>], theirs: &[Claim<'_, P>]) -> bool
    ensures { result ≡ not (list_any (λ c. list_any (conflict c) theirs.now) ours.now) }
{
    !some_conflict(ours, theirs)
}
