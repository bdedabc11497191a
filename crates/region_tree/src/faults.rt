//! Subspaces that are not within the space that is cut, or not disjoint.

ghost use Rattle.std.specs.Prelude.{◌≡◌, ℕ, ◌<◌, OnOk, IfErr};
ghost use Rattle.point_set.specs.Least.{IsLeast};
ghost use Rattle.region_tree.specs.Claims.{IsMet, met_by};
ghost use Rattle.region_tree.specs.Faults.{IsOutside, Meets, IsFaulty, Shows, ShowsFirst};
ghost use Rattle.region_tree.specs.Wholes.{lesser};

use crate::clashes::{first_meeting, first_outside};
use crate::forest_fault::ForestFault;
use crate::lookups::{first_common, is_disjoint, sub_at, whole_set};
use arena_sets::SetOfRects;
use log_tables::Decls;
use point_set::PointSet;
use std::alloc::Global;

/// The least point of subspace `i` that the space which its partition cuts has not.
fn outside<P: PointSet>(decls: &Decls<P>, i: usize) -> Option<u64>
    ensures { IsLeast (IsOutside decls.now i) result }
{
    let sub = sub_at(decls, i)?;
    let ours = decls.set(sub.space)?;
    match whole_set(decls, sub.part) {
        Some(whole) => ours.outside(whole),
        None => ours.first(),
    }
}

/// The least point at which subspace `i` clashes with the earlier one `j`.
fn shared<P: PointSet>(decls: &Decls<P>, i: usize, j: usize) -> Option<u64>
    requires { j < i }
    ensures { IsLeast (Meets decls.now i j) result }
{
    let ours = sub_at(decls, i)?;
    let theirs = sub_at(decls, j)?;
    if ours.part != theirs.part || !is_disjoint(decls, ours.part) {
        return None;
    }
    first_common(decls, ours.space, theirs.space)
}

/// The subspace that subspace `i` meets, where it is the one that a meeting is of.
fn met_by(meeting: Option<(usize, usize)>, i: usize) -> Option<usize>
    ensures { result ≡ met_by meeting i }
{
    match meeting {
        Some((sub, other)) => { if sub == i { Some(other) } else { None } }
        None => None,
    }
}

/// Refuses subspace `i` if it is faulty, where `met` is the first earlier subspace that it meets.
fn judge_sub<P: PointSet>(decls: &Decls<P>, i: usize, met: Option<usize>) -> Result<(), ForestFault>
    requires { IsMet decls.now i met }
    ensures ok { OnOk result (¬ IsFaulty decls.now i) }
    ensures shown { IfErr result (Shows decls.now i) }
{
    if let Some(point) = outside(decls, i) {
        return Err(ForestFault::NotWithin { sub: i, point });
    }
    let Some(other) = met else {
        return Ok(());
    };
    match shared(decls, i, other) {
        Some(point) => Err(ForestFault::NotDisjoint {
            sub: i,
            other,
            point,
        }),
        None => unreachable!(),
    }
}

/// The lesser of a subspace and the first one of a pair, if there is one.
fn lesser(outside: Option<usize>, meeting: Option<(usize, usize)>) -> Option<usize>
    ensures { result ≡ lesser outside meeting }
{
    match (outside, meeting) {
        (Some(i), Some((sub, _))) => Some(i.min(sub)),
        (Some(i), None) => Some(i),
        (None, Some((sub, _))) => Some(sub),
        (None, None) => None,
    }
}

/// Refuses the least faulty subspace, if there is one.
pub(crate) fn judge<P: SetOfRects>(alloc: Global, decls: &Decls<P>) -> Result<(), ForestFault>
    ensures ok { OnOk result ((i : ℕ) → ¬ IsFaulty decls.now i) }
    ensures shown { IfErr result (ShowsFirst decls.now) }
{
    let outside = first_outside(alloc, decls)?;
    let meeting = first_meeting(alloc, decls)?;
    match lesser(outside, meeting) {
        Some(i) => judge_sub(decls, i, met_by(meeting, i)),
        None => Ok(()),
    }
}
