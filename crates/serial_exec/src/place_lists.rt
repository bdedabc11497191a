//! For each place a list, which grows at its end.

ghost use Rattle.std.specs.Prelude.{◌≡◌, ◌++◌, ◌∷◌, [], OnOk, if◌then◌else◌};
ghost use Rattle.vocabulary.specs.Prelude.{Place, same_place};
ghost use Rattle.serial_exec.specs.Histories.{listed};

use semantics::Place;
use std::alloc::{AllocError, Global};
use std::collections::HashMap;

/// For each place a list, empty until something is pushed there.
#[derive(Drop)]
pub struct PlaceLists<T> {
    alloc: Global,
    pub(crate) lists: HashMap<Place, Vec<T>>,
}

impl<T: Drop> PlaceLists<T> {
    /// Lists without an element.
    pub fn new(alloc: Global) -> PlaceLists<T>
        ensures { (p : Place) → listed result p ≡ [] }
    {
        PlaceLists {
            alloc,
            lists: HashMap::new(alloc),
        }
    }

    /// The list of a place, in the order in which its elements were pushed.
    pub fn at(&self, place: &Place) -> &[T]
        ensures { result.now ≡ listed self.now place.now }
    {
        match self.lists.get(place) {
            Some(list) => list.as_slice(),
            None => &[],
        }
    }

    /// One element more at a place.
    pub fn push(&mut self, place: Place, x: T) -> Result<(), AllocError>
        ensures { OnOk result ((p : Place) → listed self.new p
            ≡ listed self.old p ++ (if same_place place p then x ∷ [] else [])) }
    {
        if let Some(list) = self.lists.get_mut(&place) {
            list.push(x)?;
            return Ok(());
        }
        let mut list = Vec::with_capacity(self.alloc, 1)?;
        list.push(x)?;
        self.lists.insert(place, list)?;
        Ok(())
    }
}
