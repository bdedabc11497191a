//! Points that two spaces share.

ghost use Rattle.std.specs.Prelude.{◌≡◌, ◌≢◌, ℕ, Contains, Some, IfSome, IsTrue};
ghost use Rattle.region_tree.specs.Faults.{IsFaulty};
ghost use Rattle.region_tree.specs.Paths.{IsPath};
ghost use Rattle.region_tree.specs.Sharing.{PartDisjoint, IsLeastShared};
ghost use Rattle.region_tree.specs.Shape.{IsForest};

use crate::lookups::{child, first_common, is_disjoint};
use crate::path::Path;
use log_tables::{Decls, Step};
use point_set::PointSet;

/// The first steps at which two paths differ: those below their last common space.
fn parting(a: &[Step], b: &[Step]) -> Option<(Step, Step)>
    ensures { IfSome result (λ steps. Contains a.now steps.0 × Contains b.now steps.1 × (steps.0 ≢ steps.1)) }
{
    for i in 0..a.len().min(b.len()) {
        if a[i] != b[i] {
            return Some((a[i], b[i]));
        }
    }
    None
}

/// Whether the paths part under two colours of one disjoint partition.
fn are_apart<P: PointSet>(decls: &Decls<P>, a: &Path, b: &Path) -> bool
    ensures { IsTrue result → PartDisjoint decls.now a.now.steps b.now.steps }
{
    if a.top() != b.top() {
        return false;
    }
    match parting(a.steps(), b.steps()) {
        Some((x, y)) => x.part == y.part && is_disjoint(decls, x.part),
        None => false,
    }
}

/// The space that a path leads to.
fn end_of<P: PointSet>(decls: &Decls<P>, path: &Path) -> Option<u32>
    requires { IsForest decls.now }
    ensures { (space : ℕ) → IsPath decls.now path.now space → result ≡ Some space }
{
    match path.steps().last() {
        Some(step) => Some(child(decls, *step)?.space),
        None => Some(path.top()),
    }
}

/// The least point that the spaces of two paths share.
pub(crate) fn alias_of<P: PointSet>(decls: &Decls<P>, a: &Path, b: &Path) -> Option<u64>
    requires forest { IsForest decls.now }
    requires faultless { (i : ℕ) → ¬ IsFaulty decls.now i }
    ensures { IsLeastShared decls.now a.now b.now result }
{
    if are_apart(decls, a, b) {
        return None;
    }
    match (end_of(decls, a), end_of(decls, b)) {
        (Some(s), Some(t)) => first_common(decls, s, t),
        _ => None,
    }
}
