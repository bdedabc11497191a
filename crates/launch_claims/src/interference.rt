//! The first record at which requirements of tasks of launches interfere.

ghost use Rattle.std.specs.Prelude.{◌≡◌, All, true, ◌<◌, ◌≤◌, ◌↔◌, ◌⊎◌, IsTrue, Contains, IfOk};
ghost use Rattle.std.specs.List.{Any};
ghost use Rattle.std.specs.List.Sorted.{IsPermutation, IsNonDecreasingBy};
ghost use Rattle.launch_claims.specs.declared.requirement.Requirement.{Requirement};
ghost use Rattle.privilege.specs.Interference.{agree};
ghost use Rattle.launch_claims.specs.Interference.{AllAgree, InterferesAt, InterferesIn, IsLeast, IsOfLaunch};

use crate::claiming::{are_in_first_column, blocks_of, claims_of};
use crate::first::first_clash;
use crate::first_block::first_block_clash;
use crate::pairs::{first_by_pairs, lesser};
use crate::requirement::{LaunchTasks, Requirement};
use arena_sets::SetOfRects;
use memory::Memory;
use point_set::PointSet;
use privilege::{Priv, agree};
use std::alloc::Global;

/// Puts requirements in the order of their tasks.
fn sort_by_task<P: PointSet + Copy>(reqs: &mut Vec<Requirement<'_, P>>)
    ensures reqs { IsPermutation reqs.old.items reqs.new.items }
    ensures order { IsNonDecreasingBy (λ r. r.task) reqs.new.items }
{
    reqs.sort_unstable_by_key(|req| req.task);
}

/// Requirements in the order of their tasks, parted in those of tasks below this one and the others, by a binary search.
fn split_at_task<'s, 'r, P: PointSet + Copy>(
    reqs: &'s [Requirement<'r, P>],
    task: u64,
) -> (&'s [Requirement<'r, P>], &'s [Requirement<'r, P>])
    requires { IsNonDecreasingBy (λ r. r.task) reqs.now }
    ensures below { (u : Requirement P) → Contains result.0.now u ↔ (Contains reqs.now u × (u.task < task)) }
    ensures others { (u : Requirement P) → Contains result.1.now u ↔ (Contains reqs.now u × (task ≤ u.task)) }
    ensures order { IsNonDecreasingBy (λ r. r.task) result.0.now }
{
    reqs.split_at(reqs.partition_point(|req| u64::from(req.task) < task))
}

/// The requirements of the tasks of a launch, which stand side by side.
fn of_launch<'s, 'r, P: PointSet + Copy>(
    launch: &LaunchTasks,
    reqs: &'s [Requirement<'r, P>],
) -> &'s [Requirement<'r, P>]
    requires { IsNonDecreasingBy (λ r. r.task) reqs.now }
    ensures { (u : Requirement P) → Contains result.now u ↔ IsOfLaunch launch.now reqs.now u }
{
    let (below, _) = split_at_task(reqs, launch.end);
    let (_, own) = split_at_task(below, u64::from(launch.base));
    own
}

/// Whether the points of some requirement come with the record of this number.
fn some_declared_at<P: PointSet + Copy>(reqs: &[Requirement<'_, P>], number: u32) -> bool
    ensures { IsTrue result ↔ Any (λ r. r.declared ≡ number) reqs.now }
{
    reqs.iter().any(|req| req.declared == number)
}

/// Whether the launch or the points of some requirement come with the record of this number.
fn is_late<P: PointSet + Copy>(
    launch: &LaunchTasks,
    reqs: &[Requirement<'_, P>],
    number: u32,
) -> bool
    ensures { IsTrue result ↔ ((launch.now.number ≡ number) ⊎ Any (λ r. r.declared ≡ number) reqs.now) }
{
    launch.number == number || some_declared_at(reqs, number)
}

/// Whether a privilege agrees with those of all requirements.
fn agrees_with_all<P: PointSet + Copy>(access: Priv, reqs: &[Requirement<'_, P>]) -> bool
    ensures { IsTrue result ↔ All (λ r. agree access r.access ≡ true) reqs.now }
{
    reqs.iter().all(|req| agree(access, req.access))
}

/// Whether the privileges of requirements all agree, where there is one. Then none of them interfere, whatever they claim.
fn all_agree<P: PointSet + Copy>(reqs: &[Requirement<'_, P>]) -> bool
    ensures { IsTrue result → AllAgree reqs.now }
{
    match reqs.first() {
        Some(first) => agrees_with_all(first.access, reqs),
        None => false,
    }
}

/// The first number at which requirements of tasks of a launch interfere, whatever columns their sets have. It is found as below, but that they claim blocks.
fn first_on_planes<P: SetOfRects + Copy>(
    alloc: Global,
    launch: &LaunchTasks,
    reqs: &[Requirement<'_, P>],
) -> Result<Option<u32>, Memory>
    ensures { IfOk result (IsLeast (InterferesIn P.points launch.now reqs.now)) }
{
    let blocks = blocks_of(alloc, launch, reqs)?;
    let Some(number) = first_block_clash(alloc, blocks.as_slice())? else {
        return Ok(None);
    };
    if is_late(launch, reqs, number) {
        Ok(first_by_pairs(launch, reqs))
    } else {
        Ok(Some(number))
    }
}

/// The first number at which requirements of tasks of a launch interfere.
///
/// Where each set lies in the first column, the requirements claim runs of points. Where these first clash, one of the two is new. Where it is new since a record asks for it, they interfere. Else the launch or its points are new, which is no interference, and all pairs are compared.
fn first_in_launch<P: SetOfRects + Copy>(
    alloc: Global,
    launch: &LaunchTasks,
    reqs: &[Requirement<'_, P>],
) -> Result<Option<u32>, Memory>
    ensures { IfOk result (IsLeast (InterferesIn P.points launch.now reqs.now)) }
{
    if all_agree(reqs) {
        return Ok(None);
    }
    if !are_in_first_column(reqs) {
        return first_on_planes(alloc, launch, reqs);
    }
    let claims = claims_of(alloc, launch, reqs)?;
    let Some(number) = first_clash(alloc, claims.as_slice())? else {
        return Ok(None);
    };
    if is_late(launch, reqs, number) {
        Ok(first_by_pairs(launch, reqs))
    } else {
        Ok(Some(number))
    }
}

/// The first number at which requirements interfere that stand in the order of their tasks.
fn first_in_launches<P: SetOfRects + Copy>(
    alloc: Global,
    launches: &[LaunchTasks],
    reqs: &[Requirement<'_, P>],
) -> Result<Option<u32>, Memory>
    requires { IsNonDecreasingBy (λ r. r.task) reqs.now }
    ensures { IfOk result (IsLeast (InterferesAt P.points launches.now reqs.now)) }
{
    let mut first: Option<u32> = None;
    for launch in launches {
        let next = first_in_launch(alloc, launch, of_launch(launch, reqs))?;
        first = lesser(first, next);
    }
    Ok(first)
}

/// The first number of a record at which requirements of tasks of launches interfere.
pub fn first_interference<P: SetOfRects + Copy>(
    alloc: Global,
    launches: &[LaunchTasks],
    reqs: &[Requirement<'_, P>],
) -> Result<Option<u32>, Memory>
    ensures { IfOk result (IsLeast (InterferesAt P.points launches.now reqs.now)) }
{
    let mut sorted = Vec::from_slice(alloc, reqs)?;
    sort_by_task(&mut sorted);
    first_in_launches(alloc, launches, sorted.as_slice())
}
