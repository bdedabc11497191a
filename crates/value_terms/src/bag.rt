//! Bags: how often each contribution was added.

ghost use Rattle.std.specs.Prelude.{◌≡◌, ◌+◌, ◌<◌, ◌≤◌, ◌^◌, [], length, take, drop, slice_get, true, false, OnOk, OnErr, IfOk};
ghost use Rattle.std.specs.List.{AllByRecursion};
ghost use Rattle.value_terms.specs.Values as says;
ghost use Rattle.value_terms.specs.Values.{counted, joined, total, same_bag, Ascends};

use crate::terms::Contribution;
use std::alloc::{AllocError, Global};
use std::marker::Model;

/// Contributions, each with its count, in the order of their tasks and then of their requirements.
#[derive(Drop)]
pub struct Bag {
    entries: Vec<(Contribution, u64)>,
}

impl Model for Bag {
    ghost use Rattle.std.specs.Prelude.{List, ℕ};
    ghost use Rattle.value_terms.specs.declared.terms.Contribution.{Contribution};

    ghost Value = { List (Contribution × ℕ) };

    ghost view = { λ b. b.entries.items };
}

/// An operator, and the bag of what was added by it.
#[derive(Drop)]
pub struct Group {
    /// The operator.
    pub op: u32,
    /// What was added by it.
    pub bag: Bag,
}

/// Whether a contribution comes before another.
#[tactic(auto, unfolding(crate::specs::Values::comes_before))]
fn comes_before(c: Contribution, d: Contribution) -> bool
    ensures { result ≡ says.comes_before c d }
{
    c.task < d.task || (c.task == d.task && c.req < d.req)
}

/// The place of a contribution: what stands before it comes before it, and nothing else does. The search begins at the end.
fn place_of(entries: &[(Contribution, u64)], c: Contribution) -> usize
    requires { Ascends entries.now }
    ensures bound { result ≤ length entries.now }
    ensures before { AllByRecursion (λ e. says.comes_before e.0 c ≡ true) (take result entries.now) }
    ensures behind { AllByRecursion (λ e. says.comes_before e.0 c ≡ false) (drop result entries.now) }
{
    let mut place = entries.len();
    while place > 0 && !comes_before(entries[place - 1].0, c) {
        place -= 1;
    }
    place
}

/// Two bags, merged in order.
fn merged(
    alloc: Global,
    one: &[(Contribution, u64)],
    other: &[(Contribution, u64)],
) -> Result<Vec<(Contribution, u64)>, AllocError>
    requires one_ascends { Ascends one.now }
    requires other_ascends { Ascends other.now }
    requires fits { total one.now + total other.now < 2 ^ 64 }
    ensures { IfOk result (λ v. v.items ≡ joined one.now other.now) }
{
    let mut out = Vec::new(alloc);
    let mut a = one;
    let mut b = other;
    while let [x, more @ ..] = a {
        let [y, rest @ ..] = b else {
            break;
        };
        if comes_before(x.0, y.0) {
            out.push(*x)?;
            a = more;
        } else if comes_before(y.0, x.0) {
            out.push(*y)?;
            b = rest;
        } else {
            out.push((x.0, x.1 + y.1))?;
            a = more;
            b = rest;
        }
    }
    out.extend_from_slice(a)?;
    out.extend_from_slice(b)?;
    Ok(out)
}

impl Bag {
    /// How many contributions there are, however often each.
    pub fn len(&self) -> usize
        ensures { result ≡ length self.now }
    {
        self.entries.len()
    }

    /// The contributions in order, each with its count.
    pub fn as_slice(&self) -> &[(Contribution, u64)]
        ensures { result.now ≡ self.now }
    {
        &self.entries
    }

    /// The contribution at place `k`, from 0, with its count, or `None` past the last.
    pub fn at(&self, k: usize) -> Option<(Contribution, u64)>
        ensures { result ≡ slice_get self.now k }
    {
        self.entries.get(k).copied()
    }

    /// A bag of one contribution.
    #[tactic(auto, unfolding(crate::specs::Values::counted))]
    pub(crate) fn one(alloc: Global, c: Contribution, n: u64) -> Result<Bag, AllocError>
        ensures { IfOk result (λ b. b ≡ counted c n []) }
    {
        let mut entries = Vec::new(alloc);
        entries.push((c, n))?;
        Ok(Bag { entries })
    }

    /// An equal bag.
    pub(crate) fn copy_of(&self, alloc: Global) -> Result<Bag, AllocError>
        ensures { IfOk result (λ b. b ≡ self.now) }
    {
        let mut entries = Vec::new(alloc);
        entries.extend_from_slice(&self.entries)?;
        Ok(Bag { entries })
    }

    /// Whether the other bag has the same contributions with the same counts.
    #[tactic(auto, unfolding(crate::specs::Values::same_contribution))]
    pub(crate) fn same(&self, other: &Bag) -> bool
        ensures { result ≡ same_bag self.now other.now }
    {
        self.entries.as_slice() == other.entries.as_slice()
    }

    /// Counts a contribution `n` times more: in constant time if it comes last.
    pub(crate) fn add(&mut self, c: Contribution, n: u64) -> Result<(), AllocError>
        requires ascends { Ascends self.old }
        requires fits { total self.old + n < 2 ^ 64 }
        ensures ok { OnOk result (self.new ≡ counted c n self.old) }
        ensures err { OnErr result (self.new ≡ self.old) }
    {
        let place = place_of(&self.entries, c);
        if place < self.entries.len() && self.entries[place].0 == c {
            self.entries[place].1 += n;
            return Ok(());
        }
        self.entries.insert(place, (c, n))?;
        Ok(())
    }

    /// Counts in another bag. What comes before all of it stays where it is.
    pub(crate) fn join(&mut self, alloc: Global, other: &Bag) -> Result<(), AllocError>
        requires ascends { Ascends self.old }
        requires other_ascends { Ascends other.now }
        requires fits { total self.old + total other.now < 2 ^ 64 }
        ensures ok { OnOk result (self.new ≡ joined self.old other.now) }
        ensures err { OnErr result (self.new ≡ self.old) }
    {
        let [first, ..] = other.entries.as_slice() else {
            return Ok(());
        };
        let place = place_of(&self.entries, first.0);
        let tail = merged(alloc, &self.entries[place..], &other.entries)?;
        self.entries.reserve(tail.len())?;
        self.entries.truncate(place);
        // There is room.
        self.entries.extend_from_slice(&tail)?;
        Ok(())
    }
}
