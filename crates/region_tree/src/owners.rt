//! The subspaces that claim a point.

ghost use Rattle.std.specs.Prelude.{◌≡◌, min};
ghost use Rattle.std.specs.Option.{option_map_or};
ghost use Rattle.region_tree.specs.Owners.{IsOwner, claims_at, has, is_kept, is_other};

use crate::claims::{Asked, Claim};
use overlaps::Point;
use point_set::Rect;

/// Whether a subspace is looked at.
pub(crate) fn is_kept(asked: Asked, limit: usize, sub: usize) -> bool
    ensures { result ≡ is_kept asked limit sub }
{
    match asked {
        Asked::Apart { also } => sub < limit || sub == also,
        Asked::Within => sub < limit,
    }
}

/// Whether a rectangle has a point.
fn has(rect: Rect, point: Point) -> bool
    ensures { result ≡ has point rect }
{
    rect.x0 <= point.x && point.x <= rect.x1 && rect.y0 <= point.y && point.y <= rect.y1
}

/// Whether a subspace is another than one, if there is one.
fn is_other(but: Option<usize>, sub: usize) -> bool
    ensures { result ≡ is_other but sub }
{
    match but {
        Some(one) => one != sub,
        None => true,
    }
}

/// Whether a claim has a point, and is of a subspace that is looked at and is another than one.
fn claims_at(claim: Claim, asked: Asked, limit: usize, point: Point, but: Option<usize>) -> bool
    ensures { result ≡ claims_at asked limit point but claim }
{
    has(claim.rect, point) && is_kept(asked, limit, claim.sub) && is_other(but, claim.sub)
}

/// The lesser of a subspace and one that was found, if any was.
fn least_with(found: Option<usize>, sub: usize) -> usize
    ensures { result ≡ option_map_or (λ least. min least sub) found sub }
{
    match found {
        Some(least) => least.min(sub),
        None => sub,
    }
}

/// The first subspace with a claim on a point, of those that are looked at and are others than one.
pub(crate) fn owner_at(
    claims: &[Claim],
    asked: Asked,
    limit: usize,
    point: Point,
    but: Option<usize>,
) -> Option<usize>
    ensures { IsOwner asked limit point but claims.now result }
{
    let mut found = None;
    for claim in claims {
        if claims_at(*claim, asked, limit, point, but) {
            found = Some(least_with(found, claim.sub));
        }
    }
    found
}
