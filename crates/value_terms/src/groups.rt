//! The groups of a value, to whose last one what is added by its operator is counted.

ghost use Rattle.std.specs.Prelude.{◌≡◌, ◌+◌, ◌<◌, ◌^◌, [], ◌∷◌, OnOk, OnErr, IfOk};
ghost use Rattle.std.specs.List.{AllByRecursion};
ghost use Rattle.value_terms.specs.Values as says;
ghost use Rattle.value_terms.specs.Values.{total, weight_in, extended, IsWellFormedBag};

use crate::bag::{Bag, Group};
use crate::terms::Contribution;
use std::alloc::{AllocError, Global};

/// Whether the last group has this operator.
fn last_has(groups: &[Group], op: u32) -> bool
    ensures { result ≡ says.last_has op groups.now }
{
    match groups {
        [.., last] => last.op == op,
        [] => false,
    }
}

/// Adds one contribution, `n` times.
pub fn add_to(groups: &mut Vec<Group>, op: u32, c: Contribution, n: u64) -> Result<(), AllocError>
    requires bags { AllByRecursion (λ g. IsWellFormedBag g.bag) groups.old.items }
    requires fits { weight_in groups.old.items + n < 2 ^ 64 }
    ensures ok { OnOk result (groups.new.items ≡ extended op ((c, n) ∷ []) groups.old.items) }
    ensures err { OnErr result (groups.new.items ≡ groups.old.items) }
{
    if last_has(groups, op) {
        let last = groups.len() - 1;
        let group = &mut groups[last];
        group.bag.add(c, n)?;
        return Ok(());
    }
    groups.reserve(1)?;
    let bag = Bag::one(*groups.allocator(), c, n)?;
    groups.push(Group { op, bag })?;
    Ok(())
}

/// Adds what a bag holds.
pub fn join_to(groups: &mut Vec<Group>, op: u32, bag: &Bag) -> Result<(), AllocError>
    requires bags { AllByRecursion (λ g. IsWellFormedBag g.bag) groups.old.items }
    requires bag { IsWellFormedBag bag.now }
    requires fits { weight_in groups.old.items + total bag.now < 2 ^ 64 }
    ensures ok { OnOk result (groups.new.items ≡ extended op bag.now groups.old.items) }
    ensures err { OnErr result (groups.new.items ≡ groups.old.items) }
{
    let alloc = *groups.allocator();
    if last_has(groups, op) {
        let last = groups.len() - 1;
        let group = &mut groups[last];
        group.bag.join(alloc, bag)?;
        return Ok(());
    }
    groups.reserve(1)?;
    let bag = bag.copy_of(alloc)?;
    groups.push(Group { op, bag })?;
    Ok(())
}

/// Copies of groups, in order.
pub fn copies_of(alloc: Global, groups: &[Group]) -> Result<Vec<Group>, AllocError>
    ensures { IfOk result (λ v. v.items ≡ groups.now) }
{
    let mut copies = Vec::new(alloc);
    let mut rest = groups;
    while let [group, more @ ..] = rest {
        copies.reserve(1)?;
        let bag = group.bag.copy_of(alloc)?;
        copies.push(Group { op: group.op, bag })?;
        rest = more;
    }
    Ok(copies)
}

/// Whether two lists of groups have the same operators and the same counts.
pub fn same_groups(one: &[Group], other: &[Group]) -> bool
    ensures { result ≡ says.same_groups one.now other.now }
{
    let mut a = one;
    let mut b = other;
    while let [group, more @ ..] = a {
        let [with, rest @ ..] = b else {
            return false;
        };
        if group.op != with.op || !group.bag.same(&with.bag) {
            return false;
        }
        a = more;
        b = rest;
    }
    b.len() == 0
}
