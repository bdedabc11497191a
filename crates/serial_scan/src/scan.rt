//! The scan of what items ask for, from the last item back.

ghost use Rattle.std.specs.Prelude.{◌≡◌, ◌<◌, ◌≤◌, filter, length, min, slice_index_or, IfOk};
ghost use Rattle.std.specs.List.Sorted.{IsNonDecreasingBy, IsStrictlyIncreasing};
ghost use Rattle.vocabulary.specs.Prelude.{is_in};
ghost use Rattle.earliest_uses.specs.Visits.{IsOver, IsVisit};
ghost use Rattle.serial_scan.specs.declared.claims.Claim.{Claim};
ghost use Rattle.serial_scan.specs.Scanned.{AreClearBefore, IsAtFirst, NoneTurnedBefore};

use crate::claims::{Claim, claims_of};
use earliest_uses::EarliestUses;
use listed_sets::Listed;
use logs::Log;
use memory::Memory;
use point_kinds::FirstPoints;
use point_set::PointSet;
use std::alloc::{AllocError, Global};

/// One use more of the listed points of a set and of some fields.
fn visit_listed<P: PointSet>(
    uses: &mut EarliestUses,
    set: &P,
    firsts: &[u64],
    claim: &Claim<'_>,
) -> Result<usize, AllocError>
    requires { IsStrictlyIncreasing firsts.now }
    ensures { IfOk result (IsVisit uses.old uses.new (IsOver claim.now.tree
        (filter (is_in firsts.now) (P.points set.now)) claim.now.fields.now) claim.now.one) }
{
    let listed = Listed::at(set, Some(firsts));
    uses.visit_all(claim.tree, &listed, claim.fields, claim.one)
}

/// One claim more. It gives a serial position: no use that was at some of its first points, and may not change places with it, is earlier.
#[tactic(auto, using(crate::proofs::Scanning::visited_first, crate::proofs::Scanning::unvisited_first))]
fn visit_claim<'a, P: PointSet + Copy>(
    uses: &mut EarliestUses,
    log: &Log<'a, P>,
    firsts: &[u64],
    claim: &Claim<'_>,
) -> Result<usize, AllocError>
    requires { IsStrictlyIncreasing firsts.now }
    ensures { IfOk result (IsVisit uses.old uses.new (IsAtFirst log.now firsts.now claim.now) claim.now.one) }
{
    match log.set(claim.space) {
        Some(set) => visit_listed(uses, set, firsts, claim),
        None => Ok(usize::MAX),
    }
}

/// The claim at a position.
fn claim_at<'l>(claims: &[Claim<'l>], k: usize) -> Claim<'l>
    requires { k < length claims.now }
    ensures { (d : Claim) → slice_index_or claims.now k d ≡ result }
{
    claims[k]
}

/// The first item that is known to have a claim behind a later one, with one claim more.
fn first_with(first: usize, claim: &Claim<'_>, earliest: usize) -> usize
    ensures behind { earliest < claim.now.one.position → result ≡ min claim.now.item first }
    ensures clear { claim.now.one.position ≤ earliest → result ≡ first }
{
    if earliest < claim.one.position {
        claim.item.min(first)
    } else {
        first
    }
}

/// An item, or the number of items, so that the claims of all items before it are clear of later ones. One pass over the claims, from the last item back.
fn first_unclear<'a, P: PointSet + Copy>(
    alloc: Global,
    log: &Log<'a, P>,
    firsts: &[u64],
    claims: &[Claim<'_>],
) -> Result<usize, AllocError>
    requires firsts { IsStrictlyIncreasing firsts.now }
    requires order { IsNonDecreasingBy (λ c. c.item) claims.now }
    ensures { IfOk result (AreClearBefore log.now firsts.now claims.now) }
{
    let mut uses = EarliestUses::new(alloc);
    let mut first = log.items().len();
    for k in (0..claims.len()).rev() {
        let claim = claim_at(claims, k);
        let earliest = visit_claim(&mut uses, log, firsts, &claim)?;
        first = first_with(first, &claim, earliest);
    }
    Ok(first)
}

/// The item at which a search has to begin.
fn search_start<'a, P: PointSet + Copy>(alloc: Global, log: &Log<'a, P>) -> Result<usize, Memory>
    ensures { IfOk result (NoneTurnedBefore log.now) }
{
    let firsts = FirstPoints::of(alloc, log)?;
    let claims = claims_of(alloc, log)?;
    let first = first_unclear(alloc, log, firsts.as_slice(), &claims)?;
    Ok(first)
}

/// An item, by its position, or the number of items, so that no item before it and a later one are of kind `Before` and stand against program order in the serial order. Where memory runs out it is the first item, and nothing is said.
pub fn first_to_search<'a, P: PointSet + Copy>(alloc: Global, log: &Log<'a, P>) -> usize
    ensures { NoneTurnedBefore log.now result }
{
    match search_start(alloc, log) {
        Ok(start) => start,
        Err(_) => 0,
    }
}
