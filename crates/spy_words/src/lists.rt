//! Lists that a word or a report holds.

ghost use Rattle.std.specs.Prelude.{◌≡◌, length, slice_get};

use std::marker::Model;

/// Items in order.
#[derive(Drop)]
pub struct ListOf<T> {
    items: Vec<T>,
}

/// A set of points as a line spells it: its parts in order, each a first and a last point.
pub type Set = ListOf<(u64, u64)>;

/// A rectangle of points, as a line spells it: its first and last column, and its first and last row.
#[derive(Clone, Copy, PartialEq, Eq)]
pub struct Quad {
    pub x0: u32,
    pub x1: u32,
    pub y0: u32,
    pub y1: u32,
}

/// Rectangles of points, in order.
pub type Rects = ListOf<Quad>;

/// The points of a space, as a line spells them.
#[derive(Drop)]
pub enum Extent {
    /// Runs of points.
    Runs(Set),
    /// Rectangles of points.
    Plane(Rects),
}

impl<T> Model for ListOf<T> {
    ghost use Rattle.std.specs.Prelude.{List};

    ghost Value = { List T };

    ghost view = { λ l. l.items.items };
}

impl<T> ListOf<T> {
    /// The list of these items. None is looked at.
    pub fn from_vec(items: Vec<T>) -> ListOf<T>
        ensures { result ≡ items.items }
    {
        ListOf { items }
    }

    /// The items, handed back.
    pub fn into_vec(self) -> Vec<T>
        ensures { result.items ≡ self }
    {
        self.items
    }

    /// The items in order.
    pub fn as_slice(&self) -> &[T]
        ensures { result.now ≡ self.now }
    {
        &self.items
    }

    /// How many items there are.
    pub fn len(&self) -> usize
        ensures { result ≡ length self.now }
    {
        self.items.len()
    }

    /// The item at place `k`, from 0, or `None` past the last.
    pub fn at(&self, k: usize) -> Option<T>
    where
        T: Copy,
        ensures { result ≡ slice_get self.now k }
    {
        self.items.get(k).copied()
    }
}

impl ListOf<(u64, u64)> {
    /// The set of these parts. No part is looked at.
    pub fn from_pairs(pairs: Vec<(u64, u64)>) -> Set
        ensures { result ≡ pairs.items }
    {
        ListOf::from_vec(pairs)
    }
}
