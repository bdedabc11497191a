//! Climbs from a space to those above it.

ghost use Rattle.std.specs.Prelude.{◌≡◌, ◌↔◌, IfOk, IsSome, IsTrue};
ghost use Rattle.log_tables.specs.Regions.{space_of};
ghost use Rattle.region_tree.specs.Ancestors.{IsUnder};
ghost use Rattle.region_tree.specs.Paths.{IsPath};
ghost use Rattle.region_tree.specs.Shape.{IsForest};

use crate::lookups::{has_space, step_to};
use crate::path::Path;
use log_tables::Decls;
use memory::Memory;
use point_set::PointSet;
use semantics::DEEPEST;
use smallvec::SmallVec;
use std::alloc::Global;

/// Whether both are declared, and the space is the root or lies below it.
pub(crate) fn is_under<P: PointSet>(decls: &Decls<P>, space: u32, root: u32) -> bool
    requires { IsForest decls.now }
    ensures { IsTrue result ↔ IsUnder decls.now space root }
{
    if !has_space(decls, space) {
        return false;
    }
    let mut at = space;
    for _up in 0..DEEPEST + 1 {
        if at == root {
            return true;
        }
        match decls.parent(at) {
            Some(parent) => at = parent,
            None => return false,
        }
    }
    false
}

/// The path of a declared space.
pub(crate) fn path_to<P: PointSet>(
    alloc: Global,
    decls: &Decls<P>,
    space: u32,
) -> Result<Path, Memory>
    requires forest { IsForest decls.now }
    requires declared { IsSome (space_of decls.now space) }
    ensures { IfOk result (λ way. IsPath decls.now way space) }
{
    let mut steps = SmallVec::new(alloc);
    let mut top = space;
    for _up in 0..DEEPEST + 1 {
        match step_to(decls, top) {
            Some((step, whole)) => {
                steps.insert(0, step)?;
                top = whole;
            }
            None => return Ok(Path::new(top, steps)),
        }
    }
    unreachable!()
}
