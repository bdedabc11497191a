//! How far claims of a field reach, in the order of their first points.

ghost use Rattle.std.specs.Prelude.{◌≡◌, ◌<◌, ◌≤◌, ◌↔◌, IsTrue};
ghost use Rattle.launch_claims.specs.Claims.{share_field};
ghost use Rattle.launch_claims.specs.Reaches.{IsOfOtherTask, IsOfOtherAccess, IsAsFar, counted};
ghost use Rattle.launch_claims.specs.Reaches.{Measures, MeasuresSoFar, HasNoneOfField, TellsReachOf, JudgesNext, MeasuresNext};

use crate::claim::{Claim, share_field};
use privilege::agree;

/// How far the claims reach that were seen so far, of the field of the last one.
#[derive(Clone, Copy)]
pub(crate) struct Reach {
    /// A claim that reaches furthest.
    pub furthest: Claim,
    /// How far those reach that are not of its task.
    pub other_tasks: Option<u64>,
    /// How far those reach whose privilege does not agree with its, where that agrees with itself.
    pub other_accesses: Option<u64>,
}

/// Whether claims reach a point that reach so far, if there are any.
fn is_within(last: Option<u64>, point: u64) -> bool
    ensures { IsTrue result ↔ IsAsFar last point }
{
    match last {
        Some(last) => point <= last,
        None => false,
    }
}

/// How far claims reach with one more that reaches to a point, if it counts.
fn counted(last: Option<u64>, counts: bool, point: u64) -> Option<u64>
    ensures { result ≡ counted last counts point }
{
    if !counts {
        return last;
    }
    match last {
        Some(last) => Some(last.max(point)),
        None => Some(point),
    }
}

/// How far those reach that are not of the task of a claim of the field.
fn reach_of_other_tasks(reach: &Reach, claim: &Claim) -> Option<u64>
    requires { IsTrue (share_field reach.now.furthest claim.now) }
    ensures { TellsReachOf (IsOfOtherTask claim.now) reach.now result }
{
    if reach.furthest.task != claim.task {
        Some(reach.furthest.last)
    } else {
        reach.other_tasks
    }
}

/// How far those reach whose privilege does not agree with that of a claim of the field.
fn reach_of_other_accesses(reach: &Reach, claim: &Claim) -> Option<u64>
    requires { IsTrue (share_field reach.now.furthest claim.now) }
    ensures { TellsReachOf (IsOfOtherAccess claim.now) reach.now result }
{
    if agree(reach.furthest.access, claim.access) {
        reach.other_accesses
    } else {
        Some(reach.furthest.last)
    }
}

/// Whether the next claim clashes with one that was seen, where no two of those clash. Those that reach its first point have that point in common, so any two of them are of one task, or their privileges agree. So if one of them is of another task than the claim, and the privilege of one does not agree with the claim's, then one of them is both.
fn clashes_with_seen(reach: &Reach, claim: &Claim) -> bool
    ensures { JudgesNext (Measures reach.now) claim.now result }
{
    if !share_field(&reach.furthest, claim) {
        return false;
    }
    if claim.last < claim.first {
        return false;
    }
    let tasks = reach_of_other_tasks(reach, claim);
    let accesses = reach_of_other_accesses(reach, claim);
    is_within(tasks, claim.first) && is_within(accesses, claim.first)
}

/// Whether the next claim clashes with one that was seen, if any was.
pub(crate) fn clashes_so_far(reach: &Option<Reach>, claim: &Claim) -> bool
    ensures { JudgesNext (MeasuresSoFar reach.now) claim.now result }
{
    match reach {
        Some(reach) => clashes_with_seen(reach, claim),
        None => false,
    }
}

/// How far claims reach with the next one, of the same field, which reaches further.
fn with_longer(reach: &Reach, claim: &Claim) -> Reach
    requires field { IsTrue (share_field reach.now.furthest claim.now) }
    requires last { reach.now.furthest.last < claim.now.last }
    ensures { MeasuresNext (Measures reach.now) claim.now result }
{
    Reach {
        furthest: *claim,
        other_tasks: reach_of_other_tasks(reach, claim),
        other_accesses: reach_of_other_accesses(reach, claim),
    }
}

/// How far claims reach with the next one, of the same field, which reaches no further.
fn with_shorter(reach: &Reach, claim: &Claim) -> Reach
    requires field { IsTrue (share_field reach.now.furthest claim.now) }
    requires last { claim.now.last ≤ reach.now.furthest.last }
    ensures { MeasuresNext (Measures reach.now) claim.now result }
{
    let furthest = reach.furthest;
    let of_other_task = claim.task != furthest.task;
    let of_other_access = !agree(claim.access, furthest.access);
    Reach {
        furthest,
        other_tasks: counted(reach.other_tasks, of_other_task, claim.last),
        other_accesses: counted(reach.other_accesses, of_other_access, claim.last),
    }
}

/// How far claims reach with one that is the first of its field.
fn first_of_field(claim: &Claim) -> Reach
    ensures { MeasuresNext (HasNoneOfField claim.now) claim.now result }
{
    Reach {
        furthest: *claim,
        other_tasks: None,
        other_accesses: None,
    }
}

/// How far claims reach with the next one.
fn with_next(reach: &Reach, claim: &Claim) -> Reach
    ensures { MeasuresNext (Measures reach.now) claim.now result }
{
    if !share_field(&reach.furthest, claim) {
        first_of_field(claim)
    } else if reach.furthest.last < claim.last {
        with_longer(reach, claim)
    } else {
        with_shorter(reach, claim)
    }
}

/// How far claims reach with the next one, of which there may have been none.
pub(crate) fn reach_with(reach: &Option<Reach>, claim: &Claim) -> Reach
    ensures { MeasuresNext (MeasuresSoFar reach.now) claim.now result }
{
    match reach {
        Some(reach) => with_next(reach, claim),
        None => first_of_field(claim),
    }
}
