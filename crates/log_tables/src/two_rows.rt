//! Rows that are looked up by either of two keys.

ghost use Rattle.std.specs.Prelude.{◌≡◌, ◌++◌, ◌∷◌, [], OnOk, OnErr, find};
ghost use Rattle.std.specs.List.{list_any, position_from};
ghost use Rattle.std.specs.Option.{option_copied};

use crate::keys::KeyBy;
use crate::places::{Places, make_room, note, place_of, plan_with};
use crate::rows::{Rows, row_at};
use std::alloc::{AllocError, Global};
use std::marker::Model;

/// Rows as in `Rows`, with a second key.
#[derive(Drop)]
pub struct TwoRows<W: KeyBy<T>, V: KeyBy<T>, T> {
    rows: Rows<W, T>,
    places: Places<V::K>,
}

impl<W: KeyBy<T>, V: KeyBy<T>, T> Model for TwoRows<W, V, T> {
    ghost use Rattle.std.specs.Prelude.{List};
    ghost use Rattle.indexmap.specs.IndexMap.{get};
    ghost use Rattle.log_tables.specs.Noted.{Finds};

    ghost Value = { List T };

    ghost view = { λ r. r.rows };

    ghost invariant = { λ r. Finds (get V.K.eq) V.K.eq V.K.number_of V.key_of r.places.ascend r.places.first r.places.noted r.rows };
}

impl<W: KeyBy<T>, V: KeyBy<T>, T> TwoRows<W, V, T> {
    /// No rows.
    pub fn new(alloc: Global) -> TwoRows<W, V, T>
        ensures { result ≡ [] }
    {
        TwoRows {
            rows: Rows::new(alloc),
            places: Places::new(alloc),
        }
    }

    /// The rows, by their first key.
    pub fn rows(&self) -> &Rows<W, T>
        ensures { result.now ≡ self.now }
    {
        &self.rows
    }

    /// The place of the first row with this second key.
    pub fn also_place(&self, key: V::K) -> Option<usize>
        ensures { result ≡ position_from (λ x. V.K.eq (V.key_of x) key) 0 self.now }
    {
        place_of::<V, T>(&self.places, self.rows.as_slice(), key)
    }

    /// Whether a row has this second key.
    pub fn also_has(&self, key: V::K) -> bool
        ensures { result ≡ list_any (λ x. V.K.eq (V.key_of x) key) self.now }
    {
        self.also_place(key).is_some()
    }

    /// The first row with this second key.
    pub fn also_get(&self, key: V::K) -> Option<&T>
        ensures { option_copied result ≡ find (λ x. V.K.eq (V.key_of x) key) self.now }
    {
        row_at(self.rows.as_slice(), self.also_place(key))
    }

    /// One row more.
    pub fn push(&mut self, row: T) -> Result<(), AllocError>
    where
        T: Drop,
        ensures ok { OnOk result (self.new ≡ self.old ++ row ∷ []) }
        ensures err { OnErr result (self.new ≡ self.old) }
    {
        let key = V::key(&row);
        let plan = plan_with::<V, T>(&self.places, self.rows.as_slice(), key);
        make_room::<V, T>(
            self.rows.allocator(),
            &mut self.places,
            self.rows.as_slice(),
            plan,
        )?;
        let place = self.rows.len();
        self.rows.push(row)?;
        note::<V, T>(&mut self.places, plan, place, key);
        Ok(())
    }
}
