//! Where the node of each event stands.

ghost use Rattle.std.specs.Prelude.{◌≡◌, ℕ, nat_eq, map, IfOk, IsSome, Some};
ghost use Rattle.id_maps.specs.Entries.{entry_at};
ghost use Rattle.std.specs.List.{position_from};

use crate::node::NodeRef;
use id_maps::IdMap;
use std::alloc::{AllocError, Global};

/// For each event the first place at which it stands.
pub(crate) fn first_places(alloc: Global, events: &[u32]) -> Result<IdMap<usize>, AllocError>
    ensures { IfOk result (λ places. (e : ℕ) → entry_at places e ≡ position_from (nat_eq e) 0 events.now) }
{
    let mut places = IdMap::new(alloc);
    // From the back, so that the first of equal events is written last.
    for i in (0..events.len()).rev() {
        places.insert(events[i], i)?;
    }
    Ok(places)
}

/// The event of each node.
pub(crate) fn events_of(alloc: Global, nodes: &[NodeRef<'_>]) -> Result<Vec<u32>, AllocError>
    ensures { IfOk result (λ v. v.items ≡ map (λ n. n.done) nodes.now) }
{
    nodes.iter().map(|n| n.done).collect(alloc)
}

/// The node of an event that is known.
pub(crate) fn place_of(places: &IdMap<usize>, event: u32) -> usize
    requires { IsSome (entry_at places.now event) }
    ensures { entry_at places.now event ≡ Some result }
{
    match places.get(event) {
        Some(p) => p,
        None => unreachable!(),
    }
}
