//! Which groups stand above a group.

ghost use Rattle.std.specs.Prelude.{◌≡◌, IfOk};
ghost use Rattle.semantics.specs.Nesting.{ancestors, group_above, is_ancestor, parent_of};

use crate::rows::row_in_place;
use nest_rules::Groups;
use semantics::Group;
use std::alloc::{AllocError, Global};

/// The group that a group is a child of, if it names one.
fn parent_of(group: Group) -> Option<u32>
    ensures { result ≡ parent_of group }
{
    if group.parent == 0 {
        None
    } else {
        Some(group.parent)
    }
}

/// The group above the first group with this id.
fn group_above(groups: &Groups, id: u32) -> Option<u32>
    ensures { result ≡ group_above groups.now id }
{
    let Some(place) = groups.place(id) else {
        return None;
    };
    let Some(group) = row_in_place(groups.groups(), place) else {
        return None;
    };
    parent_of(*group)
}

/// The ancestors of a group, the nearest first. No group has more ancestors than there are groups.
pub(crate) fn ancestors_of(
    alloc: Global,
    groups: &Groups,
    group: u32,
) -> Result<Vec<u32>, AllocError>
    ensures { IfOk result (λ above. above.items ≡ ancestors groups.now group) }
{
    let mut all = Vec::new(alloc);
    let mut above = group_above(groups, group);
    let mut left = groups.groups().len();
    while left > 0 {
        let Some(id) = above else {
            return Ok(all);
        };
        all.push(id)?;
        above = group_above(groups, id);
        left -= 1;
    }
    Ok(all)
}

/// Whether the first group is an ancestor of the second. No group has more ancestors than there are groups.
#[tactic(auto, using(crate::proofs::Above::none_above, crate::proofs::Above::here_above, crate::proofs::Above::further_above))]
pub(crate) fn is_above(groups: &Groups, g: u32, h: u32) -> bool
    ensures { result ≡ is_ancestor groups.now g h }
{
    let mut above = group_above(groups, h);
    let mut left = groups.groups().len();
    while left > 0 {
        let Some(group) = above else {
            return false;
        };
        if group == g {
            return true;
        }
        above = group_above(groups, group);
        left -= 1;
    }
    false
}
