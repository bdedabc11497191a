//! Rectangles of points that subspaces claim, each for a group of subspaces that are judged together.

ghost use Rattle.std.specs.Prelude.{◌≡◌, ◌+◌, ◌++◌, length, map, IfOk, OnOk};
ghost use Rattle.std.specs.List.Sorted.{IsPermutation};
ghost use Rattle.arena_sets.specs.Pieces.{AreRectsOf};
ghost use Rattle.region_tree.specs.Claims.{AddsClaims, AreClaims, AreInOrder, IsClaimOf, claim, group_of, whole_number};

use crate::lookups::{is_disjoint, sub_at, subs};
use arena_sets::SetOfRects;
use log_tables::Decls;
use point_set::{PointSet, Rect};
use semantics::Sub;
use std::alloc::{AllocError, Global};

/// What is asked of the subspaces before a limit.
#[derive(Clone, Copy)]
pub(crate) enum Asked {
    /// Whether no two of one disjoint partition share a point. The subspace `also` is looked at with them.
    Apart { also: usize },

    /// Whether each has only points of the space that its partition cuts.
    Within,
}

/// A rectangle that the subspace at place `sub` claims for its group.
#[derive(Clone, Copy)]
pub(crate) struct Claim {
    pub group: u64,
    pub sub: usize,
    pub rect: Rect,
}

/// The rectangles of a set.
pub(crate) fn rects_of<P: SetOfRects>(alloc: Global, set: &P) -> Result<Vec<Rect>, AllocError>
    ensures { IfOk result (λ v. AreRectsOf (P.points set.now) v.items) }
{
    let mut rects = Vec::new(alloc);
    set.push_rects(&mut rects)?;
    Ok(rects)
}

/// Claims rectangles for a subspace.
fn push_claims(
    claims: &mut Vec<Claim>,
    group: u64,
    sub: usize,
    rects: &[Rect],
) -> Result<(), AllocError>
    ensures { OnOk result (claims.new.items ≡ claims.old.items ++ map (claim group sub) rects.now) }
{
    for rect in rects {
        claims.push(Claim {
            group,
            sub,
            rect: *rect,
        })?;
    }
    Ok(())
}

/// Claims the points of a set for a subspace.
fn claim_set<P: SetOfRects>(
    alloc: Global,
    claims: &mut Vec<Claim>,
    group: u64,
    sub: usize,
    set: &P,
) -> Result<(), AllocError>
    ensures { OnOk result (AddsClaims claims.old.items claims.new.items group sub (P.points set.now)) }
{
    let rects = rects_of(alloc, set)?;
    push_claims(claims, group, sub, rects.as_slice())
}

/// One more than the id of the space that a partition cuts, or 0 if none is declared.
fn whole_number<P: PointSet>(decls: &Decls<P>, part: u32) -> u64
    ensures { result ≡ whole_number decls.now part }
{
    match decls.whole(part) {
        Some(space) => u64::from(space) + 1,
        None => 0,
    }
}

/// The group for which a subspace claims its points, if any.
fn group_of<P: PointSet>(decls: &Decls<P>, asked: Asked, sub: Sub) -> Option<u64>
    ensures { result ≡ group_of decls.now asked sub }
{
    match asked {
        Asked::Apart { also: _ } => {
            if is_disjoint(decls, sub.part) {
                Some(u64::from(sub.part))
            } else {
                None
            }
        }
        Asked::Within => Some(whole_number(decls, sub.part)),
    }
}

/// What subspace `i` claims: the points of its set, for its group.
fn claims_of<'t, P: PointSet>(decls: &'t Decls<P>, asked: Asked, i: usize) -> Option<(u64, &'t P)>
    ensures { IsClaimOf P.points decls.now asked i result }
{
    let sub = sub_at(decls, i)?;
    let group = group_of(decls, asked, sub)?;
    let set = decls.set(sub.space)?;
    Some((group, set))
}

/// Adds what subspace `i` claims to what those before it claim.
fn claim_sub<P: SetOfRects>(
    alloc: Global,
    decls: &Decls<P>,
    asked: Asked,
    i: usize,
    claims: &mut Vec<Claim>,
) -> Result<(), AllocError>
    requires { AreClaims decls.now asked i claims.old.items }
    ensures { OnOk result (AreClaims decls.now asked (i + 1) claims.new.items) }
{
    match claims_of(decls, asked, i) {
        Some((group, set)) => claim_set(alloc, claims, group, i, set),
        None => Ok(()),
    }
}

/// What all subspaces claim, one after the other.
pub(crate) fn all_claims<P: SetOfRects>(
    alloc: Global,
    decls: &Decls<P>,
    asked: Asked,
) -> Result<Vec<Claim>, AllocError>
    ensures { IfOk result (λ v. AreClaims decls.now asked (length decls.now.subs) v.items) }
{
    let mut claims = Vec::new(alloc);
    for i in 0..subs(decls).len() {
        claim_sub(alloc, decls, asked, i, &mut claims)?;
    }
    Ok(claims)
}

/// Puts claims in the order of their groups, and of their first rows.
pub(crate) fn sort(claims: &mut Vec<Claim>)
    ensures claims { IsPermutation claims.old.items claims.new.items }
    ensures order { AreInOrder claims.new.items }
{
    claims.sort_unstable_by_key(|claim| (claim.group, claim.rect.y0));
}
