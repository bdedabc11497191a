//! The first record at which claims clash.

ghost use Rattle.std.specs.Prelude.{◌≡◌, ◌≤◌, ◌↔◌, None, Contains, IfOk, IfSome};
ghost use Rattle.launch_claims.specs.declared.claim.Claim.{Claim};
ghost use Rattle.launch_claims.specs.Claims.{HasClash, IsFirstClash};
ghost use Rattle.launch_claims.specs.Reaches.{AreInOrder, IsFirstUpTo};

use crate::claim::Claim;
use crate::pass::{has_clash_up_to, sort};
use memory::Memory;
use std::alloc::Global;

/// The highest number of a record that asks for a claim.
fn highest_record(claims: &[Claim]) -> u32
    ensures { (c : Claim) → Contains claims.now c → c.record ≤ result }
{
    let mut highest = 0;
    for claim in claims {
        highest = claim.record.max(highest);
    }
    highest
}

/// The least number, of those up to `highest`, such that some two claims clash that records up to it ask for. Each step of a binary search is one pass.
fn first_up_to(claims: &[Claim], highest: u32) -> Option<u32>
    requires { AreInOrder claims.now }
    ensures { IsFirstUpTo claims.now highest result }
{
    if !has_clash_up_to(claims, highest) {
        return None;
    }
    let mut low = 0;
    let mut high = highest;
    while low < high {
        let middle = low + (high - low) / 2;
        if has_clash_up_to(claims, middle) {
            high = middle;
        } else {
            low = middle + 1;
        }
    }
    Some(low)
}

/// The first record at which claims clash, in whatever order they come. They are sorted, and gone over once where no two clash.
pub fn first_clash(alloc: Global, claims: &[Claim]) -> Result<Option<u32>, Memory>
    ensures found { IfOk result (λ o. IfSome o (IsFirstClash claims.now)) }
    ensures none { IfOk result (λ o. (o ≡ None) ↔ (¬ HasClash claims.now)) }
{
    let mut sorted = Vec::from_slice(alloc, claims)?;
    sort(&mut sorted);
    let highest = highest_record(sorted.as_slice());
    Ok(first_up_to(sorted.as_slice(), highest))
}
