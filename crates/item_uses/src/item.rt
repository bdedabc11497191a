//! What an item asks for.

ghost use Rattle.std.specs.Prelude.{◌≡◌, ◌↔◌, [], ◌∷◌, ◌++◌, List, OnOk, OnErr, true, false, None};
ghost use Rattle.privilege.specs.declared.kinds.Kind.TheVariants as kinds;
ghost use Rattle.item_uses.specs.Usages.{Usage};
ghost use Rattle.item_uses.specs.Representatives.{AreAlike};
ghost use Rattle.item_uses.specs.Sharing.{kind_between, place_between};
ghost use Rattle.item_uses.specs.Spans.{Bounds};

use crate::alike::are_alike;
use crate::between::{Interference, interference_of_lists};
use crate::span::Span;
use crate::usage::Use;
use point_set::PointSet;
use std::alloc::{AllocError, Global};
use std::hash::{DefaultHasher, Hasher};
use std::marker::Model;

/// What an item asks for, requirement by requirement, with bounds on it.
#[derive(Drop)]
pub struct ItemUses<'a, P: PointSet + Copy> {
    uses: Vec<Use<'a, P>>,
    span: Span,
}

impl<'a, P: PointSet + Copy> Model for ItemUses<'a, P> {
    ghost use Rattle.std.specs.Prelude.{List};
    ghost use Rattle.item_uses.specs.Usages.{Usage};
    ghost use Rattle.item_uses.specs.Spans.{Bounds};

    ghost Value = { List Usage };

    ghost view = { λ i. i.uses.items };

    ghost invariant = { λ i. Bounds i.span i.uses.items };
}

impl<'a, P: PointSet + Copy> ItemUses<'a, P> {
    /// An item that asks for nothing.
    pub fn new(alloc: Global) -> ItemUses<'a, P>
        ensures { result ≡ [] }
    {
        ItemUses {
            uses: Vec::new(alloc),
            span: Span::empty(),
        }
    }

    /// One requirement more.
    pub fn push(&mut self, one: Use<'a, P>) -> Result<(), AllocError>
        ensures ok { OnOk result (self.new ≡ self.old ++ one.entry ∷ []) }
        ensures err { OnErr result (self.new ≡ self.old) }
    {
        let span = self.span.union(one.span());
        self.uses.push(one)?;
        self.span = span;
        Ok(())
    }

    /// Whether another item asks for the same, but for the points.
    pub(crate) fn is_alike(&self, other: &ItemUses<'a, P>) -> bool
        ensures { result ≡ true → AreAlike self.now other.now }
    {
        are_alike(&self.uses, &other.uses)
    }

    /// A number that items that ask for the same have in common, and others hardly ever.
    pub(crate) fn fingerprint(&self) -> u64 {
        let mut hasher = DefaultHasher::new();
        for one in &self.uses {
            one.feed(&mut hasher);
        }
        hasher.finish()
    }

    /// Bounds on all that it asks for.
    pub fn span(&self) -> Span
        ensures { Bounds result self.now }
    {
        self.span
    }

    /// Whether it may interfere with what is within these bounds.
    pub fn may_interfere(&self, bounds: &Span) -> bool
        ensures { result ≡ false → (us : List Usage) → Bounds bounds.now us
            → kind_between self.now us ≡ kinds.Free }
    {
        self.span.may_interfere(bounds)
    }

    /// How two items interfere: the kind, and the least place at which they do.
    pub fn interference(&self, other: &ItemUses<'a, P>) -> Interference
        ensures kind { result.kind ≡ kind_between self.now other.now }
        ensures place { result.place ≡ place_between self.now other.now }
        ensures free { (result.kind ≡ kinds.Free) ↔ (result.place ≡ None) }
    {
        if self.span.may_interfere(&other.span) {
            interference_of_lists(&self.uses, &other.uses)
        } else {
            Interference::none()
        }
    }
}
