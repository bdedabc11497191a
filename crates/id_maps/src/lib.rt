//! Values by ids, which are mostly small numbers, and sets of ids.
//!
//! `IdMap` is asked and told like a hash map, and `IdSet` like a set. What stands at an id is `entry_at` of
//! `specs/Entries.antt`, and whether one is in a set `has_id` of `specs/Sets.antt`. Begin with `IdMap`.
#![tactic(auto)]

ghost use Rattle.std.specs.Prelude.{◌≡◌, ℕ, ◌==◌, ◌≤◌, cond, length, slice_get, Some, None, OnOk, OnErr};
ghost use Rattle.id_maps.specs.Entries.{entry_at, held};

use std::alloc::{AllocError, Global};
use std::collections::HashMap;

mod sets;

pub use sets::IdSet;

/// The ids below this one have a place in a table, and the others are hashed.
const TABLE_END: usize = 1_048_576;

/// Values by ids.
#[derive(Drop)]
pub struct IdMap<T> {
    table: Vec<Option<T>>,
    others: HashMap<u32, T>,
}

/// What stands at a place of a table, if it is so long.
fn entry_in<T: Copy>(table: &[Option<T>], k: usize) -> Option<Option<T>>
    ensures { result ≡ slice_get table.now k }
{
    table.get(k).copied()
}

/// Makes a table at least so long, which holds what it held.
fn grow<T: Drop>(table: &mut Vec<Option<T>>, len: usize) -> Result<(), AllocError>
    ensures long { OnOk result (len ≤ length table.new.items) }
    ensures held { (k : ℕ) → held (slice_get table.new.items k) ≡ held (slice_get table.old.items k) }
{
    for _ in table.len()..len {
        table.push(None)?;
    }
    Ok(())
}

impl<T: Copy + Drop> IdMap<T> {
    /// No id has a value.
    pub fn new(alloc: Global) -> IdMap<T>
        ensures { (id : ℕ) → entry_at result id ≡ None }
    {
        IdMap {
            table: Vec::new(alloc),
            others: HashMap::new(alloc),
        }
    }

    /// The value of an id, if it has one.
    pub fn get(&self, id: u32) -> Option<T>
        ensures { result ≡ entry_at self.now id }
    {
        let k = id as usize;
        if k >= TABLE_END {
            return self.others.get(&id).copied();
        }
        match entry_in(self.table.as_slice(), k) {
            Some(entry) => entry,
            None => None,
        }
    }

    /// Gives an id a value, in place of the one that it had. Where memory runs out all ids have what they had.
    pub fn insert(&mut self, id: u32, value: T) -> Result<(), AllocError>
        ensures put { OnOk result ((other : ℕ)
            → entry_at self.new other ≡ cond (id == other) (Some value) (entry_at self.old other)) }
        ensures kept { OnErr result ((other : ℕ) → entry_at self.new other ≡ entry_at self.old other) }
    {
        let k = id as usize;
        if k >= TABLE_END {
            self.others.insert(id, value)?;
            return Ok(());
        }
        grow(&mut self.table, k + 1)?;
        self.table[k] = Some(value);
        Ok(())
    }
}
