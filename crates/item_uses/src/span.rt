//! Bounds on what requirements ask for.

ghost use Rattle.std.specs.Prelude.{◌≡◌};
ghost use Rattle.item_uses.specs.Usages.{Usage};
ghost use Rattle.item_uses.specs.Spans.{IsWithin, spans_overlap, may_interfere};

use crate::accesses::Accesses;

/// Bounds on trees, points and fields, the least and the greatest of each, and on privileges. Nothing is within them where a first is greater than its last.
#[derive(Clone, Copy, PartialEq, Eq)]
pub struct Span {
    pub first_tree: u32,
    pub last_tree: u32,
    pub first_point: u64,
    pub last_point: u64,
    pub first_field: u32,
    pub last_field: u32,
    pub accesses: Accesses,
}

impl Span {
    /// Whether two bounds leave room for a common place.
    pub fn overlaps(&self, other: &Span) -> bool
        ensures { result ≡ spans_overlap self.now other.now }
    {
        self.last_point >= other.first_point
            && other.last_point >= self.first_point
            && self.last_tree >= other.first_tree
            && other.last_tree >= self.first_tree
            && self.last_field >= other.first_field
            && other.last_field >= self.first_field
    }

    /// Whether what is within the one may interfere with what is within the other.
    pub fn may_interfere(&self, other: &Span) -> bool
        ensures { result ≡ may_interfere self.now other.now }
    {
        !self.accesses.all_agree(other.accesses) && self.overlaps(other)
    }

    /// The bounds that nothing is within.
    pub(crate) fn empty() -> Span {
        Span {
            first_tree: u32::MAX,
            last_tree: 0,
            first_point: u64::MAX,
            last_point: 0,
            first_field: u32::MAX,
            last_field: 0,
            accesses: Accesses::Nothing,
        }
    }

    /// The bounds on all that is within either.
    pub(crate) fn union(self, other: Span) -> Span
        ensures ours { (u : Usage) → IsWithin self u → IsWithin result u }
        ensures theirs { (u : Usage) → IsWithin other u → IsWithin result u }
    {
        Span {
            first_tree: self.first_tree.min(other.first_tree),
            last_tree: self.last_tree.max(other.last_tree),
            first_point: self.first_point.min(other.first_point),
            last_point: self.last_point.max(other.last_point),
            first_field: self.first_field.min(other.first_field),
            last_field: self.last_field.max(other.last_field),
            accesses: self.accesses.union(other.accesses),
        }
    }
}
