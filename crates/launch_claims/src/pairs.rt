//! The requirements of a launch, compared pair by pair.

ghost use Rattle.std.specs.Prelude.{◌≡◌, ◌<◌, ◌≤◌, ◌↔◌, IsTrue, Contains};
ghost use Rattle.std.specs.List.{Any};
ghost use Rattle.launch_claims.specs.Interference.{Conflict, InterferesIn, IsKnownAt, IsLeast, least_with, lesser, ShareNumber};
ghost use Rattle.launch_claims.specs.declared.requirement.Requirement.{Requirement};

use crate::requirement::{LaunchTasks, Requirement};
use point_set::PointSet;
use privilege::agree;

/// Whether two lists have a number in common.
fn share_number(ours: &[u32], theirs: &[u32]) -> bool
    ensures { IsTrue result ↔ ShareNumber ours.now theirs.now }
{
    ours.iter().any(|number| theirs.contains(number))
}

/// Whether two sets have a point in common.
fn share_point<P: PointSet>(ours: &P, theirs: &P) -> bool
    ensures { IsTrue result ↔ ShareNumber (P.points ours.now) (P.points theirs.now) }
{
    ours.meets(theirs)
}

/// Whether two requirements are in conflict.
fn are_in_conflict<P: PointSet + Copy>(
    ours: &Requirement<'_, P>,
    theirs: &Requirement<'_, P>,
) -> bool
    ensures { IsTrue result ↔ Conflict P.points ours.now theirs.now }
{
    ours.task != theirs.task
        && ours.tree == theirs.tree
        && !agree(ours.access, theirs.access)
        && share_number(ours.fields, theirs.fields)
        && share_point(&ours.set, &theirs.set)
}

/// Whether a requirement interferes with another in a launch, at the record that asks for it.
fn interferes<P: PointSet + Copy>(
    launch: &LaunchTasks,
    ours: &Requirement<'_, P>,
    theirs: &Requirement<'_, P>,
) -> bool
    ensures { IsTrue result ↔ (IsKnownAt launch.now ours.now.record ours.now theirs.now
        × Conflict P.points ours.now theirs.now) }
{
    launch.number < ours.record
        && ours.declared < ours.record
        && theirs.record <= ours.record
        && theirs.declared < ours.record
        && are_in_conflict(ours, theirs)
}

/// Whether a requirement interferes with one of some in a launch, at the record that asks for it.
fn interferes_with_some<P: PointSet + Copy>(
    launch: &LaunchTasks,
    ours: &Requirement<'_, P>,
    reqs: &[Requirement<'_, P>],
) -> bool
    ensures { IsTrue result ↔ Any (λ v. IsKnownAt launch.now ours.now.record ours.now v
        × Conflict P.points ours.now v) reqs.now }
{
    reqs.iter().any(|theirs| interferes(launch, ours, theirs))
}

/// A number, or the lesser of two where there is another.
fn least_with(number: u32, other: Option<u32>) -> u32
    ensures { result ≡ least_with number other }
{
    match other {
        Some(other) => number.min(other),
        None => number,
    }
}

/// The lesser of two numbers, each of which may be missing.
pub(crate) fn lesser(one: Option<u32>, other: Option<u32>) -> Option<u32>
    ensures { result ≡ lesser one other }
{
    match one {
        Some(number) => Some(least_with(number, other)),
        None => other,
    }
}

/// The first number at which requirements of tasks of a launch interfere. It takes quadratic time in the requirements.
pub(crate) fn first_by_pairs<P: PointSet + Copy>(
    launch: &LaunchTasks,
    reqs: &[Requirement<'_, P>],
) -> Option<u32>
    ensures { IsLeast (InterferesIn P.points launch.now reqs.now) result }
{
    let mut first: Option<u32> = None;
    for req in reqs {
        if interferes_with_some(launch, req, reqs) {
            first = Some(least_with(req.record, first));
        }
    }
    first
}
