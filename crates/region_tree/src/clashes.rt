//! The first subspaces with a fault: those that leave the space which is cut, and those that meet an earlier one of
//! their disjoint partition. Each step of the search for them is one pass over claims, which tells of a fault before
//! a limit whose it is.

ghost use Rattle.std.specs.Prelude.{◌≡◌, ◌+◌, ◌++◌, ◌<◌, ◌∷◌, [], IfNone, IfOk, IfSome, MatchOption, OnOk};
ghost use Rattle.region_tree.specs.Claims.{AreOfOneGroup, AreReady, HaveOneWhole, IsFailing, IsFirstFailing, IsFirstMeeting, IsGroupCut, NoneLeave, NoneOverlap, NoneShare, last_found, later_before, limit_by, rects_kept};
ghost use Rattle.region_tree.specs.Wholes.{IsFirstOutside};

use crate::claims::{Asked, Claim, all_claims, sort};
use crate::lookups::subs;
use crate::owners::{is_kept, owner_at};
use crate::wholes::outside_point;
use arena_sets::SetOfRects;
use log_tables::Decls;
use overlaps::{Point, shared_point};
use point_set::Rect;
use std::alloc::{AllocError, Global};

/// How often a search asks about all that is before a fault that was found, before it goes by halves.
const GUESSES: u32 = 4;

/// The claims for the first group, and those for the others.
fn cut_group(claims: &[Claim]) -> Option<(&[Claim], &[Claim])>
    requires { AreReady claims.now }
    ensures none { IfNone result (claims.now ≡ []) }
    ensures cut { IfSome result (λ cut. IsGroupCut claims.now cut.0.now cut.1.now) }
{
    let group = claims.first()?.group;
    let end = claims.partition_point(|claim| claim.group <= group);
    Some(claims.split_at(end))
}

/// Adds the rectangle of a claim, if its subspace is kept.
fn push_kept(
    rects: &mut Vec<Rect>,
    claim: Claim,
    asked: Asked,
    limit: usize,
) -> Result<(), AllocError>
    ensures { OnOk result (rects.new.items ≡ rects.old.items ++ rects_kept asked limit (claim ∷ [])) }
{
    if is_kept(asked, limit, claim.sub) {
        rects.push(claim.rect)?;
    }
    Ok(())
}

/// The rectangles that the kept subspaces claim.
fn rects_kept(
    alloc: Global,
    claims: &[Claim],
    asked: Asked,
    limit: usize,
) -> Result<Vec<Rect>, AllocError>
    ensures { IfOk result (λ v. v.items ≡ rects_kept asked limit claims.now) }
{
    let mut rects = Vec::new(alloc);
    for claim in claims {
        push_kept(&mut rects, *claim, asked, limit)?;
    }
    Ok(rects)
}

/// Of two subspaces, the later one, or the other where that is not before a limit.
fn later_before(limit: usize, one: usize, other: usize) -> usize
    ensures { result ≡ later_before limit one other }
{
    let later = one.max(other);
    if later < limit { later } else { one.min(other) }
}

/// Of two kept subspaces with a claim on a point, the later one before the limit.
fn meeting_at(claims: &[Claim], also: usize, limit: usize, point: Point) -> Option<usize>
    requires ready { AreReady claims.now }
    requires group { AreOfOneGroup claims.now }
    ensures { MatchOption result (NoneShare also limit claims.now point)
        (λ i. (i < limit) × ¬ NoneOverlap also (i + 1) claims.now) }
{
    let asked = Asked::Apart { also };
    let Some(one) = owner_at(claims, asked, limit, point, None) else {
        return None;
    };
    let Some(other) = owner_at(claims, asked, limit, point, Some(one)) else {
        return None;
    };
    Some(later_before(limit, one, other))
}

/// A kept subspace of one partition that meets another, if any does.
fn meeting_in(
    alloc: Global,
    claims: &[Claim],
    also: usize,
    limit: usize,
) -> Result<Option<usize>, AllocError>
    requires ready { AreReady claims.now }
    requires group { AreOfOneGroup claims.now }
    ensures { IfOk result (λ o. MatchOption o (NoneOverlap also limit claims.now)
        (λ i. (i < limit) × ¬ NoneOverlap also (i + 1) claims.now)) }
{
    let rects = rects_kept(alloc, claims, Asked::Apart { also }, limit)?;
    match shared_point(alloc, rects.as_slice())? {
        Some(point) => Ok(meeting_at(claims, also, limit, point)),
        None => Ok(None),
    }
}

/// A kept subspace of partitions that cut one space with a point which that space has not, if there is one.
fn leaving_in<P: SetOfRects>(
    alloc: Global,
    decls: &Decls<P>,
    claims: &[Claim],
    limit: usize,
) -> Result<Option<usize>, AllocError>
    requires ready { AreReady claims.now }
    requires wholes { HaveOneWhole decls.now claims.now }
    requires group { AreOfOneGroup claims.now }
    ensures { IfOk result (λ o. MatchOption o (NoneLeave decls.now limit claims.now)
        (λ i. (i < limit) × ¬ NoneLeave decls.now (i + 1) claims.now)) }
{
    let Some(first) = claims.first() else {
        return Ok(None);
    };
    let rects = rects_kept(alloc, claims, Asked::Within, limit)?;
    match outside_point(alloc, decls, rects.as_slice(), first.sub)? {
        Some(point) => Ok(owner_at(claims, Asked::Within, limit, point, None)),
        None => Ok(None),
    }
}

/// A kept subspace of one group that fails, if any does.
fn failing_in<P: SetOfRects>(
    alloc: Global,
    decls: &Decls<P>,
    claims: &[Claim],
    asked: Asked,
    limit: usize,
) -> Result<Option<usize>, AllocError>
    requires ready { AreReady claims.now }
    requires wholes { HaveOneWhole decls.now claims.now }
    requires group { AreOfOneGroup claims.now }
    ensures { IfOk result (IsFailing decls.now asked limit claims.now) }
{
    match asked {
        Asked::Apart { also } => meeting_in(alloc, claims, also, limit),
        Asked::Within => leaving_in(alloc, decls, claims, limit),
    }
}

/// The last subspace that was found.
fn last_found(before: Option<usize>, found: Option<usize>) -> Option<usize>
    ensures { result ≡ last_found before found }
{
    match found {
        Some(sub) => Some(sub),
        None => before,
    }
}

/// The limit of what is looked at, once a subspace before it was found.
fn limit_by(found: Option<usize>, limit: usize) -> usize
    ensures { result ≡ limit_by found limit }
{
    match found {
        Some(sub) => sub,
        None => limit,
    }
}

/// A kept subspace that fails, if any does. Behind the first group that has one, only those before it are looked at.
fn one_failing<P: SetOfRects>(
    alloc: Global,
    decls: &Decls<P>,
    claims: &[Claim],
    asked: Asked,
    limit: usize,
) -> Result<Option<usize>, AllocError>
    requires ready { AreReady claims.now }
    requires wholes { HaveOneWhole decls.now claims.now }
    ensures { IfOk result (IsFailing decls.now asked limit claims.now) }
{
    let mut found = None;
    let mut rest = claims;
    while let Some((group, behind)) = cut_group(rest) {
        let failing = failing_in(alloc, decls, group, asked, limit_by(found, limit))?;
        found = last_found(found, failing);
        rest = behind;
    }
    Ok(found)
}

/// A limit between two others, at which a search asks next: just before the higher one, or in the middle.
fn next_limit(low: usize, high: usize, guesses: u32) -> usize
    requires { low + 1 < high }
    ensures { (low < result) × (result < high) }
{
    if guesses > 0 {
        high - 1
    } else {
        low + (high - low) / 2
    }
}

/// The first subspace that fails, of those before `count`. Each step of the search is one pass. Mostly few are needed, and a binary search bounds their number.
fn first_failing<P: SetOfRects>(
    alloc: Global,
    decls: &Decls<P>,
    claims: &[Claim],
    asked: Asked,
    count: usize,
) -> Result<Option<usize>, AllocError>
    requires ready { AreReady claims.now }
    requires wholes { HaveOneWhole decls.now claims.now }
    ensures { IfOk result (IsFirstFailing decls.now claims.now asked count) }
{
    let Some(found) = one_failing(alloc, decls, claims, asked, count)? else {
        return Ok(None);
    };
    let (mut low, mut high) = (0, found + 1);
    let mut guesses = GUESSES;
    while high - low > 1 {
        let limit = next_limit(low, high, guesses);
        guesses = guesses.saturating_sub(1);
        match one_failing(alloc, decls, claims, asked, limit)? {
            Some(sub) => high = sub + 1,
            None => low = limit,
        }
    }
    Ok(Some(low))
}

/// The first subspace that meets an earlier one of its disjoint partition, and the first one that it meets.
///
/// It sorts the rectangles of all such subspaces once, and where none meets another it goes over them once.
pub(crate) fn first_meeting<P: SetOfRects>(
    alloc: Global,
    decls: &Decls<P>,
) -> Result<Option<(usize, usize)>, AllocError>
    ensures { IfOk result (IsFirstMeeting decls.now) }
{
    let asked = Asked::Apart { also: 0 };
    let mut claims = all_claims(alloc, decls, asked)?;
    sort(&mut claims);
    let claims = claims.as_slice();
    let Some(sub) = first_failing(alloc, decls, claims, asked, subs(decls).len())? else {
        return Ok(None);
    };
    match first_failing(alloc, decls, claims, Asked::Apart { also: sub }, sub)? {
        Some(other) => Ok(Some((sub, other))),
        None => unreachable!(),
    }
}

/// The first subspace with a point that the space which its partition cuts has not.
///
/// It sorts the rectangles of all subspaces once. In one pass over them, what a space leaves free is found once, for all partitions that cut it.
pub(crate) fn first_outside<P: SetOfRects>(
    alloc: Global,
    decls: &Decls<P>,
) -> Result<Option<usize>, AllocError>
    ensures { IfOk result (IsFirstOutside decls.now) }
{
    let mut claims = all_claims(alloc, decls, Asked::Within)?;
    sort(&mut claims);
    first_failing(
        alloc,
        decls,
        claims.as_slice(),
        Asked::Within,
        subs(decls).len(),
    )
}
