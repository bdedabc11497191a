//! Values.

ghost use Rattle.std.specs.Prelude.{◌≡◌, ◌≢◌, ℕ, ◌+◌, ◌-◌, ◌<◌, ◌≤◌, ◌^◌, [], ◌∷◌, length, option_map, OnOk, OnErr, IfOk};
ghost use Rattle.std.specs.List.{AllByRecursion};
ghost use Rattle.value_terms.specs.Values as says;
ghost use Rattle.value_terms.specs.Values.{plain, group_at, add, add_one, fold_in, weight_of, same_value, IsSmallEntry, IsWellFormedBag, IsHeld};
ghost use Rattle.value_terms.specs.Foldings.{IsFolding};

use crate::bag::{Bag, Group};
use crate::groups;
use crate::terms::{Base, Contribution};
use memory::Memory;
use std::alloc::Global;
use std::marker::Model;

/// A base, and what was added to it since: groups, each an operator with a bag, the oldest first.
///
/// No raw value has groups, no bag is empty, and neighbouring groups have different operators. All
/// counts together stay below 2^64.
#[derive(Drop)]
pub struct Value {
    base: Base,
    groups: Vec<Group>,
    weight: u64,
}

impl Model for Value {
    ghost use Rattle.std.specs.Prelude.{◌≡◌};
    ghost use Rattle.value_terms.specs.Values as says;

    ghost Value = { says.Value };

    ghost view = { λ v. says.value_of v.base v.groups.items };

    ghost invariant = { λ v. says.IsHeld (says.value_of v.base v.groups.items)
        × (v.weight ≡ says.weight_in v.groups.items) };
}

/// Whether a base is raw.
fn is_raw(base: Base) -> bool
    ensures { result ≡ says.is_raw base }
{
    matches!(base, Base::Raw)
}

/// What folding a value in does to another.
enum Folding<'a> {
    Nothing,
    Adds(&'a Bag),
    Spoils,
}

/// What folding the value in by an operator does: only the identity, alone or with one group of the operator, does not spoil.
fn folding_of(from: &Value, op: u32) -> Folding<'_>
    ensures { IsFolding op from.now result }
{
    let Base::Ident = from.base else {
        return Folding::Spoils;
    };
    match from.groups.as_slice() {
        [] => Folding::Nothing,
        [group] => {
            if group.op == op {
                Folding::Adds(&group.bag)
            } else {
                Folding::Spoils
            }
        }
        [_, _, ..] => Folding::Spoils,
    }
}

impl Value {
    /// The base, to which nothing was added.
    pub fn of(alloc: Global, base: Base) -> Value
        ensures { result ≡ plain base }
    {
        Value {
            base,
            groups: Vec::new(alloc),
            weight: 0,
        }
    }

    /// The law of all values: the rules that they meet. There is nothing to do.
    pub fn rules(&self)
        ensures { IsHeld self.now }
    {
        let _ = &self.base;
    }

    /// The sum of all counts.
    pub fn weight(&self) -> u64
        ensures { result ≡ weight_of self.now }
    {
        self.weight
    }

    /// What the value was before anything was added to it.
    pub fn base(&self) -> Base
        ensures { result ≡ self.now.base }
    {
        self.base
    }

    /// The groups, the oldest first.
    pub fn groups(&self) -> &[Group]
        ensures { result.now ≡ self.now.groups }
    {
        &self.groups
    }

    /// How many groups there are.
    pub fn group_count(&self) -> usize
        ensures { result ≡ length self.now.groups }
    {
        self.groups.len()
    }

    /// The operator and the bag of group `k`, from 0, the oldest first, or `None` past the last.
    pub fn group(&self, k: usize) -> Option<(u32, &Bag)>
        ensures { option_map {U = ℕ × says.Bag} (λ g. (g.0, g.1.now)) result ≡ group_at self.now k }
    {
        let group = self.groups.get(k)?;
        Some((group.op, &group.bag))
    }

    /// Whether the two are equal.
    #[tactic(auto, unfolding(crate::specs::Values::same_value))]
    pub fn same(&self, other: &Value) -> bool
        ensures { result ≡ same_value self.now other.now }
    {
        self.base == other.base && groups::same_groups(&self.groups, &other.groups)
    }

    /// An equal value.
    pub fn copy_of(&self, alloc: Global) -> Result<Value, Memory>
        ensures { IfOk result (λ v. v ≡ self.now) }
    {
        let groups = groups::copies_of(alloc, &self.groups)?;
        Ok(Value {
            base: self.base,
            groups,
            weight: self.weight,
        })
    }

    /// Adds a contribution once: in constant time where it comes last in the last group.
    pub fn add(&mut self, op: u32, c: Contribution) -> Result<(), Memory>
        // Its counts would no longer fit.
        requires { weight_of self.old < 2 ^ 64 - 1 }
        ensures ok { OnOk result (self.new ≡ add_one op c self.old) }
        ensures err { OnErr result (self.new ≡ self.old) }
    {
        self.add_many(op, c, 1)
    }

    /// Adds a contribution `n` times.
    pub fn add_many(&mut self, op: u32, c: Contribution, n: u64) -> Result<(), Memory>
        // No contribution is counted 0 times.
        requires some { 1 ≤ n }
        requires fits { weight_of self.old + n < 2 ^ 64 }
        ensures ok { OnOk result (self.new ≡ add op ((c, n) ∷ []) self.old) }
        ensures err { OnErr result (self.new ≡ self.old) }
    {
        if is_raw(self.base) {
            return Ok(());
        }
        groups::add_to(&mut self.groups, op, c, n)?;
        self.weight += n;
        Ok(())
    }

    /// Folds a value in by an operator. The identity changes nothing, the identity with one group of the operator adds what that group holds, and any other value leaves a raw one.
    pub fn fold(&mut self, op: u32, from: &Value) -> Result<(), Memory>
        requires { weight_of self.old + weight_of from.now < 2 ^ 64 }
        ensures ok { OnOk result (self.new ≡ fold_in self.old op from.now) }
        ensures err { OnErr result (self.new ≡ self.old) }
    {
        from.rules();
        match folding_of(from, op) {
            Folding::Nothing => Ok(()),
            Folding::Adds(bag) => {
                self.join(op, bag, from.weight())?;
                Ok(())
            }
            Folding::Spoils => {
                self.spoil();
                Ok(())
            }
        }
    }

    /// Adds what a bag holds, `total` contributions in all.
    fn join(&mut self, op: u32, bag: &Bag, total: u64) -> Result<(), Memory>
        requires some { bag.now ≢ [] }
        requires bag { IsWellFormedBag bag.now }
        requires small { AllByRecursion IsSmallEntry bag.now }
        requires total { total ≡ says.total bag.now }
        requires fits { weight_of self.old + total < 2 ^ 64 }
        ensures ok { OnOk result (self.new ≡ add op bag.now self.old) }
        ensures err { OnErr result (self.new ≡ self.old) }
    {
        if is_raw(self.base) {
            return Ok(());
        }
        groups::join_to(&mut self.groups, op, bag)?;
        self.weight += total;
        Ok(())
    }

    /// Makes the value raw.
    fn spoil(&mut self)
        ensures { self.new ≡ plain Base.Raw }
    {
        self.base = Base::Raw;
        self.groups.clear();
        self.weight = 0;
    }
}
