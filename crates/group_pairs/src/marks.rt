//! Marks of places.

ghost use Rattle.std.specs.Prelude.{◌≡◌, ◌++◌, ◌∷◌, [], OnOk};
ghost use Rattle.std.specs.List.{list_any};
ghost use Rattle.group_pairs.specs.Sites.{marked};

use std::alloc::{AllocError, Global};
use std::marker::Model;

/// Marks of places, from the first on.
#[derive(Drop)]
pub(crate) struct Marks {
    marks: Vec<bool>,
}

impl Model for Marks {
    ghost use Rattle.std.specs.Prelude.{List, Bool};

    ghost Value = { List Bool };

    ghost view = { λ m. m.marks.items };
}

/// Whether a place is marked. Without a place, and past the last mark, it is.
fn is_marked(marks: &[bool], place: Option<usize>) -> bool
    ensures { result ≡ marked marks.now place }
{
    match place {
        Some(place) => marks.get(place).copied().unwrap_or(true),
        None => true,
    }
}

/// Whether one of some places is marked.
fn is_one_marked(marks: &[bool], places: &[Option<usize>]) -> bool
    ensures { result ≡ list_any (marked marks.now) places.now }
{
    places.iter().any(|place| is_marked(marks, *place))
}

impl Marks {
    /// No marks.
    pub(crate) fn new(alloc: Global) -> Marks
        ensures { result ≡ [] }
    {
        Marks {
            marks: Vec::new(alloc),
        }
    }

    /// The next mark.
    pub(crate) fn push(&mut self, mark: bool) -> Result<(), AllocError>
        ensures { OnOk result (self.new ≡ self.old ++ mark ∷ []) }
    {
        self.marks.push(mark)?;
        Ok(())
    }

    /// Whether a place is marked.
    pub(crate) fn has(&self, place: Option<usize>) -> bool
        ensures { result ≡ marked self.now place }
    {
        is_marked(&self.marks, place)
    }

    /// Whether one of some places is marked.
    pub(crate) fn has_one(&self, places: &[Option<usize>]) -> bool
        ensures { result ≡ list_any (marked self.now) places.now }
    {
        is_one_marked(&self.marks, places)
    }
}
