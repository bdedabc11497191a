//! What is looked up of declarations, as forests ask for it.

ghost use Rattle.std.specs.Prelude.{◌≡◌, ◌↔◌, ◌==◌, slice_get, IsSome, IsTrue};
ghost use Rattle.std.specs.List.{position_from};
ghost use Rattle.log_tables.specs.Regions.{step_of, is_at, space_of, child_of, space_points, IsSetOf};
ghost use Rattle.region_tree.specs.Faults.{is_disjoint, points_cut};
ghost use Rattle.region_tree.specs.Paths.{step_to};
ghost use Rattle.point_set.specs.Least.{IsLeastCommon};

use log_tables::{Decls, Step};
use point_set::PointSet;
use semantics::Sub;

/// The step down to the space of a subspace.
pub(crate) fn step_of(sub: &Sub) -> Step
    ensures { result ≡ step_of sub.now }
{
    Step {
        part: sub.part,
        colour: sub.colour,
    }
}

/// The first place of a space with this id.
pub(crate) fn space_place<P: PointSet>(decls: &Decls<P>, id: u32) -> Option<usize>
    ensures { result ≡ position_from (λ s. s.id == id) 0 decls.now.spaces }
{
    decls.spaces().place(id)
}

/// The first place of a partition with this id.
pub(crate) fn part_place<P: PointSet>(decls: &Decls<P>, id: u32) -> Option<usize>
    ensures { result ≡ position_from (λ p. p.id == id) 0 decls.now.parts }
{
    decls.parts().rows().place(id)
}

/// The first place at which the space is declared as a subspace.
pub(crate) fn sub_place<P: PointSet>(decls: &Decls<P>, space: u32) -> Option<usize>
    ensures { result ≡ position_from (λ s. s.space == space) 0 decls.now.subs }
{
    decls.subs().also_place(space)
}

/// The first place of a subspace of this partition and colour.
pub(crate) fn child_place<P: PointSet>(decls: &Decls<P>, step: Step) -> Option<usize>
    ensures { result ≡ position_from (is_at step) 0 decls.now.subs }
{
    decls.subs().rows().place(step)
}

/// The subspaces.
pub(crate) fn subs<'d, P: PointSet>(decls: &'d Decls<P>) -> &'d [Sub]
    ensures { result.now ≡ decls.now.subs }
{
    decls.subs().rows().as_slice()
}

/// Subspace `i` of the declarations.
pub(crate) fn sub_at<P: PointSet>(decls: &Decls<P>, i: usize) -> Option<Sub>
    ensures { result ≡ slice_get decls.now.subs i }
{
    subs(decls).get(i).copied()
}

/// Whether there is a space with this id.
pub(crate) fn has_space<P: PointSet>(decls: &Decls<P>, id: u32) -> bool
    ensures { IsTrue result ↔ IsSome (space_of decls.now id) }
{
    decls.space(id).is_some()
}

/// The subspace of this partition and colour.
pub(crate) fn child<P: PointSet>(decls: &Decls<P>, step: Step) -> Option<Sub>
    ensures { result ≡ child_of decls.now step }
{
    decls.subs().rows().get(step).copied()
}

/// The set of the space that a partition cuts.
pub(crate) fn whole_set<'d, P: PointSet>(decls: &'d Decls<P>, part: u32) -> Option<&'d P>
    ensures { IsSetOf P.points result (points_cut decls.now part) }
{
    match decls.whole(part) {
        Some(space) => decls.set(space),
        None => None,
    }
}

/// Whether the partition is declared disjoint.
pub(crate) fn is_disjoint<P: PointSet>(decls: &Decls<P>, part: u32) -> bool
    ensures { result ≡ is_disjoint decls.now part }
{
    match decls.part(part) {
        Some(part) => part.disjoint,
        None => false,
    }
}

/// The least point that two spaces share.
pub(crate) fn first_common<P: PointSet>(decls: &Decls<P>, a: u32, b: u32) -> Option<u64>
    ensures { IsLeastCommon (space_points decls.now a) (space_points decls.now b) result }
{
    match (decls.set(a), decls.set(b)) {
        (Some(ours), Some(theirs)) => ours.first_common(theirs),
        _ => None,
    }
}

/// The last step to a subspace, with the space from which it leads.
pub(crate) fn step_to<P: PointSet>(decls: &Decls<P>, space: u32) -> Option<(Step, u32)>
    ensures { result ≡ step_to decls.now space }
{
    let sub = decls.subs().also_get(space)?;
    let whole = decls.whole(sub.part)?;
    Some((step_of(sub), whole))
}
