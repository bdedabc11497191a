//! Places that the requirements of tasks claim.

ghost use Rattle.std.specs.Prelude.{◌≡◌, ◌&&◌, ◌||◌, false, not, [], ◌∷◌, OnOk, Some};
ghost use Rattle.std.specs.HashMap.{get};
ghost use Rattle.std.specs.List.{list_any};
ghost use Rattle.log_rules.specs.Own.{Adds, clashes, clashes_in, same_place, claims_at, clashes_row};
ghost use Rattle.log_rules.specs.declared.claims.OwnPlace.{OwnPlace};
ghost use Rattle.vocabulary.specs.Prelude.{agree, Priv};

use privilege::{Priv, agree};
use std::alloc::{AllocError, Global};
use std::collections::HashMap;

/// How many requirements of a task each later one of it is held against directly. Only those after them claim places.
pub(crate) const FEW: usize = 4;

/// A place of the requirements of one task, which is named by its position among the items.
#[derive(Clone, Copy, PartialEq, Eq, Hash)]
pub(crate) struct OwnPlace {
    pub item: usize,
    pub tree: u32,
    pub point: u64,
    pub field: u32,
}

/// What a requirement asks for: these fields of a space in a tree, for an item, with a privilege.
#[derive(Clone, Copy)]
pub(crate) struct ItemReq<'a> {
    pub item: usize,
    pub tree: u32,
    pub space: u32,
    pub fields: &'a [u32],
    pub access: Priv,
}

/// What is claimed at each place: a privilege that agrees with exactly those that all requirements there agree with, or none where no privilege does.
#[derive(Drop)]
pub(crate) struct Claims {
    places: HashMap<OwnPlace, Option<Priv>>,
}

/// What is kept of a place with one requirement more.
fn joined(kept: Option<Option<Priv>>, access: Priv) -> Option<Priv>
    ensures { (a : Priv) → clashes (Some result) a ≡ (clashes kept a || not (agree access a)) }
{
    match kept {
        None => Some(access),
        Some(None) => None,
        Some(Some(other)) => {
            if agree(other, access) {
                Some(other)
            } else {
                None
            }
        }
    }
}

impl Claims {
    /// No place is claimed.
    pub fn new(alloc: Global) -> Claims
        ensures { (k : OwnPlace) (a : Priv) → clashes_in result k a ≡ false }
    {
        Claims {
            places: HashMap::new(alloc),
        }
    }

    /// Whether a privilege clashes with what is claimed at a place.
    fn clashes(&self, place: OwnPlace, access: Priv) -> bool
        ensures { result ≡ clashes_in self.now place access }
    {
        match self.places.get(&place) {
            Some(Some(kept)) => !agree(*kept, access),
            Some(None) => true,
            None => false,
        }
    }

    /// Whether what is asked for clashes at a point.
    fn clashes_at_point(&self, point: u64, asked: &ItemReq<'_>) -> bool
        ensures { result ≡ clashes_row self.now asked.now.item asked.now.tree asked.now.fields.now
            asked.now.access point }
    {
        asked.fields.iter().any(|field| {
            self.clashes(
                OwnPlace {
                    item: asked.item,
                    tree: asked.tree,
                    point,
                    field: *field,
                },
                asked.access,
            )
        })
    }

    /// Whether what is asked for clashes at some of these points of its space.
    pub fn clashes_any(&self, points: &[u64], asked: &ItemReq<'_>) -> bool
        ensures { result ≡ list_any (clashes_row self.now asked.now.item asked.now.tree asked.now.fields.now
            asked.now.access) points.now }
    {
        points
            .iter()
            .any(|point| self.clashes_at_point(*point, asked))
    }

    /// One requirement more at a place.
    fn claim(&mut self, place: OwnPlace, access: Priv) -> Result<(), AllocError>
        ensures { OnOk result (Adds self.old self.new (λ k a. same_place place k && not (agree access a))) }
    {
        let kept = self.places.get(&place).copied();
        let claim = joined(kept, access);
        self.places.insert(place, claim)?;
        Ok(())
    }

    /// One requirement more at a point.
    fn claim_at_point(&mut self, point: u64, asked: &ItemReq<'_>) -> Result<(), AllocError>
        ensures { OnOk result (Adds self.old self.new (claims_at asked.now.item asked.now.tree
            (point ∷ []) asked.now.fields.now asked.now.access)) }
    {
        for field in asked.fields {
            let place = OwnPlace {
                item: asked.item,
                tree: asked.tree,
                point,
                field: *field,
            };
            self.claim(place, asked.access)?;
        }
        Ok(())
    }

    /// One requirement more at these points of its space.
    pub fn claim_all(&mut self, points: &[u64], asked: &ItemReq<'_>) -> Result<(), AllocError>
        ensures { OnOk result (Adds self.old self.new (claims_at asked.now.item asked.now.tree
            points.now asked.now.fields.now asked.now.access)) }
    {
        for point in points {
            self.claim_at_point(*point, asked)?;
        }
        Ok(())
    }
}
