//! Whether declarations make a forest.

ghost use Rattle.std.specs.Prelude.{◌≢◌, ◌↔◌, All, AllPairs, MatchBool, Some, IsSome, IsTrue};
ghost use Rattle.log_tables.specs.Regions.{space_of, part_of, step_of};
ghost use Rattle.region_tree.specs.Ancestors.{IsShallow};
ghost use Rattle.region_tree.specs.Firsts.{AllFirst, SomeLater};
ghost use Rattle.region_tree.specs.Shape.{IsForest};

use crate::lookups::{child_place, has_space, part_place, space_place, step_of, sub_place, subs};
use log_tables::Decls;
use point_set::PointSet;
use semantics::DEEPEST;

/// Whether each item stands at the place that `first_place` finds for it.
fn stand_first<T, F: Fn(&T) -> Option<usize>>(items: &[T], first_place: F) -> bool
    requires { F.IsAlwaysCallable first_place }
    ensures { MatchBool result (AllFirst F.Fn first_place items.now) (SomeLater F.Fn first_place items.now) }
{
    for i in 0..items.len() {
        if first_place(&items[i]) != Some(i) {
            return false;
        }
    }
    true
}

/// Whether no two spaces have one id.
fn are_space_ids_distinct<P: PointSet>(decls: &Decls<P>) -> bool
    ensures { IsTrue result ↔ AllPairs (λ s t. s.id ≢ t.id) decls.now.spaces }
{
    stand_first(decls.spaces().as_slice(), |s| space_place(decls, s.id))
}

/// Whether no two partitions have one id.
fn are_part_ids_distinct<P: PointSet>(decls: &Decls<P>) -> bool
    ensures { IsTrue result ↔ AllPairs (λ s t. s.id ≢ t.id) decls.now.parts }
{
    stand_first(decls.parts().rows().as_slice(), |p| part_place(decls, p.id))
}

/// Whether no two subspaces have one partition and colour.
fn are_steps_distinct<P: PointSet>(decls: &Decls<P>) -> bool
    ensures { IsTrue result ↔ AllPairs (λ s t. step_of s ≢ step_of t) decls.now.subs }
{
    stand_first(subs(decls), |s| child_place(decls, step_of(s)))
}

/// Whether no space is declared as a subspace twice.
fn are_sub_spaces_distinct<P: PointSet>(decls: &Decls<P>) -> bool
    ensures { IsTrue result ↔ AllPairs (λ s t. s.space ≢ t.space) decls.now.subs }
{
    stand_first(subs(decls), |s| sub_place(decls, s.space))
}

/// Whether the space that each partition cuts is declared.
fn are_wholes_declared<P: PointSet>(decls: &Decls<P>) -> bool
    ensures { IsTrue result ↔ All (λ p. IsSome (space_of decls.now p.space)) decls.now.parts }
{
    let parts = decls.parts().rows().as_slice();
    parts.iter().all(|p| has_space(decls, p.space))
}

/// Whether the partition of each subspace is declared.
fn are_parts_declared<P: PointSet>(decls: &Decls<P>) -> bool
    ensures { IsTrue result ↔ All (λ s. IsSome (part_of decls.now s.part)) decls.now.subs }
{
    subs(decls).iter().all(|s| decls.part(s.part).is_some())
}

/// Whether the space of each subspace is declared.
fn are_spaces_declared<P: PointSet>(decls: &Decls<P>) -> bool
    ensures { IsTrue result ↔ All (λ s. IsSome (space_of decls.now s.space)) decls.now.subs }
{
    subs(decls).iter().all(|s| has_space(decls, s.space))
}

/// Whether no space lies more than `DEEPEST` steps above this one.
fn is_shallow<P: PointSet>(decls: &Decls<P>, space: u32) -> bool
    ensures { IsTrue result ↔ IsShallow decls.now space }
{
    let mut at = space;
    for _up in 0..DEEPEST + 1 {
        match decls.parent(at) {
            Some(parent) => at = parent,
            None => return true,
        }
    }
    false
}

/// Whether no space lies more than `DEEPEST` steps above a subspace.
fn are_subs_shallow<P: PointSet>(decls: &Decls<P>) -> bool
    ensures { IsTrue result ↔ All (λ s. IsShallow decls.now s.space) decls.now.subs }
{
    subs(decls).iter().all(|s| is_shallow(decls, s.space))
}

/// Whether the declarations make a forest: ids are distinct, names are declared, no two subspaces have one place or one space, and no space lies below itself or more than 64 steps deep.
///
/// It takes no memory.
pub fn is_forest<P: PointSet>(decls: &Decls<P>) -> bool
    ensures { IsTrue result ↔ IsForest decls.now }
{
    if !are_space_ids_distinct(decls) {
        return false;
    }
    if !are_part_ids_distinct(decls) {
        return false;
    }
    if !are_steps_distinct(decls) {
        return false;
    }
    if !are_sub_spaces_distinct(decls) {
        return false;
    }
    if !are_wholes_declared(decls) {
        return false;
    }
    if !are_parts_declared(decls) {
        return false;
    }
    if !are_spaces_declared(decls) {
        return false;
    }
    are_subs_shallow(decls)
}
