//! Groups with bounds on what they may do.

ghost use Rattle.std.specs.Prelude.{◌≡◌, All, map, IfOk};
ghost use Rattle.log_tables.specs.Regions.{space_points};
ghost use Rattle.group_pairs.specs.Outlines.{IsParty};

use crate::ground::Ground;
use crate::outline::{Outline, outline_of};
use crate::side::Side;
use point_set::PointSet;
use std::alloc::{AllocError, Global};

/// A group with bounds on what it may do.
#[derive(Drop)]
pub(crate) struct Party<'s, 'r, 'a, P: PointSet + Copy> {
    pub(crate) side: &'s Side<'r, 'a, P>,
    pub(crate) outline: Outline,
}

/// Each group with bounds on what it may do.
pub(crate) fn parties_of<'s, 'r, 'a, P: PointSet + Copy>(
    alloc: Global,
    ground: &Ground<'_, '_, P>,
    sides: &'s [Side<'r, 'a, P>],
) -> Result<Vec<Party<'s, 'r, 'a, P>>, AllocError>
    requires { All (λ s. All (λ c. c.points ≡ space_points ground.now.regions c.space) s.claims) sides.now }
    ensures sides { IfOk result (λ parties. map (λ p. p.side.now) parties.items ≡ sides.now) }
    ensures bounds { IfOk result (λ parties. All (IsParty ground.now) parties.items) }
{
    let mut parties = Vec::new(alloc);
    for side in sides {
        let outline = outline_of(alloc, ground, side.claims())?;
        parties.push(Party { side, outline })?;
    }
    Ok(parties)
}
