//! One pass over claims in order.

ghost use Rattle.std.specs.Prelude.{◌+◌, ◌↔◌, IsTrue};
ghost use Rattle.std.specs.List.Sorted.{IsPermutation};
ghost use Rattle.launch_claims.specs.Claims.{HasClash, asked_below};
ghost use Rattle.launch_claims.specs.Reaches.{AreInOrder};

use crate::claim::Claim;
use crate::reach::{Reach, clashes_so_far, reach_with};

/// Puts claims in the order of their trees, fields and first points.
pub(crate) fn sort(claims: &mut Vec<Claim>)
    ensures claims { IsPermutation claims.old.items claims.new.items }
    ensures order { AreInOrder claims.new.items }
{
    claims.sort_unstable_by_key(|claim| (claim.tree, claim.field, claim.first));
}

/// Whether some two claims clash that records up to `number` ask for, by one pass.
pub(crate) fn has_clash_up_to(claims: &[Claim], number: u32) -> bool
    requires { AreInOrder claims.now }
    ensures { IsTrue result ↔ HasClash (asked_below (number + 1) claims.now) }
{
    let mut reach: Option<Reach> = None;
    for claim in claims {
        if claim.record <= number {
            if clashes_so_far(&reach, claim) {
                return true;
            }
            reach = Some(reach_with(&reach, claim));
        }
    }
    false
}
