//! Rows that are looked up by a key.

ghost use Rattle.std.specs.Prelude.{◌≡◌, ◌++◌, ◌∷◌, [], OnOk, OnErr, find, length, slice_get, option_and_then};
ghost use Rattle.std.specs.List.{list_any, position_from};
ghost use Rattle.std.specs.Option.{option_copied};

use crate::keys::KeyBy;
use crate::places::{Places, make_room, note, place_near, place_of, plan_with};
use std::alloc::{AllocError, Global};
use std::marker::Model;

/// Rows in the order in which they were added, which contracts see as a list. A row is looked up by its key: of rows with one key, the first.
///
/// They take no memory for their places while the numbers of their keys ascend, as those of ids in most logs do. Once they do not, the places of all are noted.
#[derive(Drop)]
pub struct Rows<W: KeyBy<T>, T> {
    rows: Vec<T>,
    places: Places<W::K>,
}

impl<W: KeyBy<T>, T> Model for Rows<W, T> {
    ghost use Rattle.std.specs.Prelude.{List};
    ghost use Rattle.indexmap.specs.IndexMap.{get};
    ghost use Rattle.log_tables.specs.Noted.{Finds};

    ghost Value = { List T };

    ghost view = { λ r. r.rows.items };

    ghost invariant = { λ r. Finds (get W.K.eq) W.K.eq W.K.number_of W.key_of r.places.ascend r.places.first r.places.noted r.rows.items };
}

/// The row at a place.
pub(crate) fn row_at<T>(rows: &[T], place: Option<usize>) -> Option<&T>
    ensures { option_copied result ≡ option_and_then (slice_get rows.now) place }
{
    rows.get(place?)
}

impl<W: KeyBy<T>, T> Rows<W, T> {
    /// No rows.
    pub fn new(alloc: Global) -> Rows<W, T>
        ensures { result ≡ [] }
    {
        Rows {
            rows: Vec::new(alloc),
            places: Places::new(alloc),
        }
    }

    /// The rows.
    pub fn as_slice(&self) -> &[T]
        ensures { result.now ≡ self.now }
    {
        &self.rows
    }

    /// What the rows take their memory from.
    pub(crate) fn allocator(&self) -> Global {
        *self.rows.allocator()
    }

    /// How many rows there are.
    pub fn len(&self) -> usize
        ensures { result ≡ length self.now }
    {
        self.rows.len()
    }

    /// The place of the first row with this key.
    pub fn place(&self, key: W::K) -> Option<usize>
        ensures { result ≡ position_from (λ x. W.K.eq (W.key_of x) key) 0 self.now }
    {
        place_of::<W, T>(&self.places, &self.rows, key)
    }

    /// The same, where it is likely that the row stands at this place, so that this one is looked at first.
    pub(crate) fn place_near(&self, key: W::K, guess: usize) -> Option<usize>
        ensures { result ≡ position_from (λ x. W.K.eq (W.key_of x) key) 0 self.now }
    {
        place_near::<W, T>(&self.places, &self.rows, key, guess)
    }

    /// Whether a row has this key.
    pub fn has(&self, key: W::K) -> bool
        ensures { result ≡ list_any (λ x. W.K.eq (W.key_of x) key) self.now }
    {
        self.place(key).is_some()
    }

    /// The first row with this key.
    pub fn get(&self, key: W::K) -> Option<&T>
        ensures { option_copied result ≡ find (λ x. W.K.eq (W.key_of x) key) self.now }
    {
        row_at(&self.rows, self.place(key))
    }

    /// The same, where it is likely that the row stands at this place.
    pub(crate) fn get_near(&self, key: W::K, guess: usize) -> Option<&T>
        ensures { option_copied result ≡ find (λ x. W.K.eq (W.key_of x) key) self.now }
    {
        row_at(&self.rows, self.place_near(key, guess))
    }

    /// One row more.
    pub fn push(&mut self, row: T) -> Result<(), AllocError>
    where
        T: Drop,
        ensures ok { OnOk result (self.new ≡ self.old ++ row ∷ []) }
        ensures err { OnErr result (self.new ≡ self.old) }
    {
        let key = W::key(&row);
        let plan = plan_with::<W, T>(&self.places, &self.rows, key);
        make_room::<W, T>(*self.rows.allocator(), &mut self.places, &self.rows, plan)?;
        let place = self.rows.len();
        self.rows.push(row)?;
        note::<W, T>(&mut self.places, plan, place, key);
        Ok(())
    }
}
