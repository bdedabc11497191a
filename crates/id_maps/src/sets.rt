//! Sets of ids.

ghost use Rattle.std.specs.Prelude.{◌≡◌, ◌==◌, ◌||◌, ℕ, false, not, IfOk, OnOk, OnErr};
ghost use Rattle.id_maps.specs.Sets.{has_id};

use crate::IdMap;
use std::alloc::{AllocError, Global};

/// A set of ids.
#[derive(Drop)]
pub struct IdSet {
    ids: IdMap<()>,
}

impl IdSet {
    /// No id.
    pub fn new(alloc: Global) -> IdSet
        ensures { (id : ℕ) → has_id result id ≡ false }
    {
        IdSet {
            ids: IdMap::new(alloc),
        }
    }

    /// Whether an id is in the set.
    pub fn contains(&self, id: u32) -> bool
        ensures { result ≡ has_id self.now id }
    {
        self.ids.get(id).is_some()
    }

    /// Puts an id into the set, and tells whether it was not there yet. Where memory runs out the set is as it was.
    pub fn insert(&mut self, id: u32) -> Result<bool, AllocError>
        ensures put { OnOk result ((other : ℕ)
            → has_id self.new other ≡ (has_id self.old other || (id == other))) }
        ensures added { IfOk result (λ is_new. is_new ≡ not (has_id self.old id)) }
        ensures kept { OnErr result ((other : ℕ) → has_id self.new other ≡ has_id self.old other) }
    {
        let is_new = !self.contains(id);
        self.ids.insert(id, ())?;
        Ok(is_new)
    }
}
