//! How many pairs of groups are free of each other.

ghost use Rattle.std.specs.Prelude.{◌≡◌, ◌≤◌, ◌*◌, All, count_by, length, map, IfOk};
ghost use Rattle.log_tables.specs.Regions.{space_points};
ghost use Rattle.group_pairs.specs.Outlines.{IsParty};
ghost use Rattle.group_pairs.specs.Sides.{are_apart, pairs_apart};

use crate::clashes::clash;
use crate::ground::Ground;
use crate::party::{Party, parties_of};
use crate::side::Side;
use memory::Memory;
use point_set::PointSet;
use region_tree::Forest;
use std::alloc::Global;

/// Whether two groups are free of each other, and neither is an ancestor of the other.
#[tactic(auto, using(crate::proofs::Bounded::no_clash))]
fn are_apart<P: PointSet + Copy>(
    ground: &Ground<'_, '_, P>,
    a: &Party<'_, '_, '_, P>,
    b: &Party<'_, '_, '_, P>,
) -> bool
    requires a { IsParty ground.now a.now }
    requires b { IsParty ground.now b.now }
    ensures { result ≡ are_apart a.now.side.now b.now.side.now }
{
    if a.side.is_in_line_with(b.side) {
        return false;
    }
    if !a.outline.may_clash(&b.outline) {
        return true;
    }
    let ours = &a.outline.places;
    let theirs = &b.outline.places;
    !clash(ground, a.side.claims(), ours, b.side.claims(), theirs)
}

/// How many of some groups are so with one.
fn count_with<P: PointSet + Copy>(
    ground: &Ground<'_, '_, P>,
    one: &Party<'_, '_, '_, P>,
    others: &[Party<'_, '_, '_, P>],
) -> usize
    requires one { IsParty ground.now one.now }
    requires others { All (IsParty ground.now) others.now }
    ensures count { result ≡ count_by (are_apart one.now.side.now) (map (λ p. p.side.now) others.now) }
    ensures few { result ≤ length others.now }
{
    let mut count = 0;
    for other in others {
        if are_apart(ground, one, other) {
            count += 1;
        }
    }
    count
}

/// How many pairs of groups are so.
fn count_pairs<P: PointSet + Copy>(
    ground: &Ground<'_, '_, P>,
    parties: &[Party<'_, '_, '_, P>],
) -> u64
    requires few { length parties.now ≤ 65536 }
    requires parties { All (IsParty ground.now) parties.now }
    ensures { result ≡ pairs_apart (map (λ p. p.side.now) parties.now) }
{
    let mut count = 0;
    let mut left = parties;
    while let [one, others @ ..] = left {
        count += count_with(ground, one, others) as u64;
        left = others;
    }
    count
}

/// How many pairs of groups are free of each other, of which neither is an ancestor of the other.
pub fn count_apart<P: PointSet + Copy>(
    alloc: Global,
    forest: &Forest<'_, P>,
    sides: &[Side<'_, '_, P>],
) -> Result<u64, Memory>
    requires few { length sides.now ≤ 65536 }
    requires points { All (λ s. All (λ c. c.points ≡ space_points forest.now c.space) s.claims) sides.now }
    ensures { IfOk result (λ count. count ≡ pairs_apart sides.now) }
{
    let ground = Ground::of(alloc, forest, sides)?;
    let parties = parties_of(alloc, &ground, sides)?;
    Ok(count_pairs(&ground, &parties))
}
