//! Bounds on what a group may do.

ghost use Rattle.std.specs.Prelude.{◌≡◌, ◌≤◌, true, All, IfOk};
ghost use Rattle.log_tables.specs.Regions.{space_points};
ghost use Rattle.group_pairs.specs.Outlines.{AreWithin, HaveOnly, IsOutline, agree_all, may_clash};

use crate::ground::Ground;
use crate::marks::Marks;
use licences::Claim;
use point_set::PointSet;
use privilege::{Priv, agree};
use std::alloc::{AllocError, Global};

/// The places of the sites of a group's spaces, which sites share points with these, the one privilege if there is just one, and bounds on the fields.
#[derive(Drop)]
pub(crate) struct Outline {
    pub(crate) places: Vec<Option<usize>>,
    pub(crate) near: Marks,
    pub(crate) only: Option<Priv>,
    pub(crate) low: u32,
    pub(crate) high: u32,
}

/// Whether a claim has a privilege.
fn has_access<P: PointSet + Copy>(claim: &Claim<'_, P>, access: Priv) -> bool
    ensures { result ≡ true → claim.now.access ≡ access }
{
    claim.access() == access
}

/// Whether all claims have a privilege.
fn have_only<P: PointSet + Copy>(claims: &[Claim<'_, P>], access: Priv) -> bool
    ensures { result ≡ true → All (λ c. c.access ≡ access) claims.now }
{
    for claim in claims {
        if !has_access(claim, access) {
            return false;
        }
    }
    true
}

/// The privilege of all claims, if they have just one.
fn only_access<P: PointSet + Copy>(claims: &[Claim<'_, P>]) -> Option<Priv>
    ensures { HaveOnly result claims.now }
{
    let Some(first) = claims.first() else {
        return None;
    };
    let access = first.access();
    if have_only(claims, access) {
        Some(access)
    } else {
        None
    }
}

/// Bounds on some fields and on what was within bounds before.
fn widened(bounds: (u32, u32), fields: &[u32]) -> (u32, u32)
    ensures low { result.0 ≤ bounds.0 }
    ensures high { bounds.1 ≤ result.1 }
    ensures fields { All (λ f. (result.0 ≤ f) × (f ≤ result.1)) fields.now }
{
    let mut low = bounds.0;
    let mut high = bounds.1;
    for field in fields {
        low = low.min(*field);
        high = high.max(*field);
    }
    (low, high)
}

/// Bounds on the fields of some claims.
fn field_bounds<P: PointSet + Copy>(claims: &[Claim<'_, P>]) -> (u32, u32)
    ensures { AreWithin result.0 result.1 claims.now }
{
    let mut bounds = (u32::MAX, 0);
    for claim in claims {
        bounds = widened(bounds, claim.fields());
    }
    bounds
}

/// The bounds on some claims.
pub(crate) fn outline_of<P: PointSet + Copy>(
    alloc: Global,
    ground: &Ground<'_, '_, P>,
    claims: &[Claim<'_, P>],
) -> Result<Outline, AllocError>
    requires { All (λ c. c.points ≡ space_points ground.now.regions c.space) claims.now }
    ensures { IfOk result (IsOutline ground.now claims.now) }
{
    let places = ground.places(alloc, claims)?;
    let near = ground.near(alloc, &places)?;
    let (low, high) = field_bounds(claims);
    Ok(Outline {
        places,
        near,
        only: only_access(claims),
        low,
        high,
    })
}

/// Whether both have just one privilege, and these agree.
fn agree_throughout(ours: Option<Priv>, theirs: Option<Priv>) -> bool
    ensures { result ≡ agree_all ours theirs }
{
    match (ours, theirs) {
        (Some(ours), Some(theirs)) => agree(ours, theirs),
        _ => false,
    }
}

impl Outline {
    /// Whether there may be a conflict with what is within other bounds.
    pub(crate) fn may_clash(&self, other: &Outline) -> bool
        ensures { result ≡ may_clash self.now other.now }
    {
        !agree_throughout(self.only, other.only)
            && self.low <= other.high
            && other.low <= self.high
            && other.near.has_one(&self.places)
    }
}
