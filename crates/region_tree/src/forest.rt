//! Forests of regions.

ghost use Rattle.std.specs.Prelude.{◌≡◌, ◌↔◌, ℕ, Err, IfOk, OnOk, IsSome, IfSome, IsTrue};
ghost use Rattle.std.specs.Option.{option_map};
ghost use Rattle.log_tables.specs.Regions.{space_of, declared_points, space_points};
ghost use Rattle.point_set.specs.Least.{IsLeastCommon};
ghost use Rattle.region_tree.specs.Ancestors.{IsUnder};
ghost use Rattle.region_tree.specs.Paths.{IsPath};
ghost use Rattle.region_tree.specs.Shape.{IsForest};
ghost use Rattle.region_tree.specs.Faults.{IsFaulty, FirstNotWithin, FirstNotDisjoint};
ghost use Rattle.region_tree.specs.Sound.{IsSound};

use crate::climb::{is_under, path_to};
use crate::faults::judge;
use crate::forest_fault::ForestFault;
use crate::lookups::has_space;
use crate::path::Path;
use crate::sharing::alias_of;
use arena_sets::SetOfRects;
use log_tables::Decls;
use memory::Memory;
use point_set::PointSet;
use std::alloc::Global;
use std::marker::Model;

/// A view of declarations that make a forest, with each subspace within the space that is cut and each disjoint partition disjoint.
#[derive(Drop)]
pub struct Forest<'d, P: PointSet> {
    decls: &'d Decls<P>,
}

impl<'d, P: PointSet> Model for Forest<'d, P> {
    ghost use Rattle.log_tables.specs.Regions.{Regions};
    ghost use Rattle.region_tree.specs.Sound.{IsSound};

    ghost Value = { Regions };

    ghost view = { λ f. f.decls.now };

    ghost invariant = { λ f. IsSound f.decls.now };
}

impl<'d, P: PointSet> Forest<'d, P> {
    /// The forest of declarations that are known to make one.
    pub fn of(decls: &'d Decls<P>) -> Forest<'d, P>
        requires { IsSound decls.now }
        ensures { result ≡ decls.now }
    {
        Forest { decls }
    }

    /// The set of a space, or `None` if the space is not declared.
    pub fn set_of(&self, space: u32) -> Option<&'d P>
        ensures { option_map (λ set. P.points set.now) result ≡ declared_points self.now space }
    {
        self.decls.set(space)
    }

    /// Whether both are declared, and the space is the root or lies below it.
    pub fn under(&self, space: u32, root: u32) -> bool
        ensures { IsTrue result ↔ IsUnder self.now space root }
    {
        is_under(self.decls, space, root)
    }

    /// The path of a space, or `None` if the space is not declared. The only error is that memory ran out.
    pub fn path_of(&self, alloc: Global, space: u32) -> Result<Option<Path>, Memory>
        ensures declared { IfOk result (λ path. IsSome path ↔ IsSome (space_of self.now space)) }
        ensures path { IfOk result (λ path. IfSome path (λ way. IsPath self.now way space)) }
    {
        if !has_space(self.decls, space) {
            return Ok(None);
        }
        let path = path_to(alloc, self.decls, space)?;
        Ok(Some(path))
    }

    /// The least point that the spaces of two paths share, or `None` if they share none. Takes no memory.
    ///
    /// Both are paths of this forest. Below two colours of one disjoint partition no point is looked at.
    pub fn alias(&self, a: &Path, b: &Path) -> Option<u64>
        requires a { (s : ℕ) × IsPath self.now a.now s }
        requires b { (t : ℕ) × IsPath self.now b.now t }
        ensures { (s t : ℕ) → IsPath self.now a.now s → IsPath self.now b.now t
            → IsLeastCommon (space_points self.now s) (space_points self.now t) result }
    {
        alias_of(self.decls, a, b)
    }
}

impl<'d, P: SetOfRects> Forest<'d, P> {
    /// The forest that is declared.
    ///
    /// It is refused just where some subspace is faulty: with the least faulty one, and the least point at fault.
    pub fn judge(alloc: Global, decls: &'d Decls<P>) -> Result<Forest<'d, P>, ForestFault>
        requires { IsForest decls.now }
        ensures forest { IfOk result (λ forest. forest ≡ decls.now) }
        ensures faultless { OnOk result ((i : ℕ) → ¬ IsFaulty decls.now i) }

        // Each refusal shows the least faulty subspace. The first way of being faulty comes before the second.
        ensures not_within { (sub point : ℕ) → result ≡ Err (ForestFault.NotWithin sub point)
            → FirstNotWithin decls.now sub point }
        ensures not_disjoint { (sub other point : ℕ) → result ≡ Err (ForestFault.NotDisjoint sub other point)
            → FirstNotDisjoint decls.now sub other point }
    {
        judge(alloc, decls)?;
        Ok(Forest { decls })
    }
}
