//! Whether nodes make a graph.

ghost use Rattle.std.specs.Prelude.{◌≡◌, ◌↔◌, ℕ, ◌<◌, true, length, slice_index, All, Some, is_some, IfOk, IsTrue};
ghost use Rattle.id_maps.specs.Entries.{entry_at};
ghost use Rattle.vocabulary.specs.Prelude.{AreLinked};

use crate::node::{NodeIn, NodeRef, refs_of};
use crate::places::{events_of, first_places};
use id_maps::IdMap;
use memory::Memory;
use std::alloc::{AllocError, Global};

/// Whether each event stands first where it stands.
fn are_first(places: &IdMap<usize>, events: &[u32]) -> bool
    ensures { IsTrue result
        ↔ ((k : ℕ) → k < length events.now → entry_at places.now (slice_index events.now k) ≡ Some k) }
{
    for (k, event) in events.iter().enumerate() {
        if places.get(*event) != Some(k) {
            return false;
        }
    }
    true
}

/// Whether it is known where an event stands.
fn is_known(places: &IdMap<usize>, event: u32) -> bool
    ensures { result ≡ is_some (entry_at places.now event) }
{
    places.get(event).is_some()
}

/// Whether it is known where each of these events stands.
fn are_known(places: &IdMap<usize>, events: &[u32]) -> bool
    ensures { IsTrue result ↔ All (λ e. is_some (entry_at places.now e) ≡ true) events.now }
{
    for event in events {
        if !is_known(places, *event) {
            return false;
        }
    }
    true
}

/// Whether it is known where each event stands that a node waits on.
fn are_waits_known(places: &IdMap<usize>, nodes: &[NodeRef<'_>]) -> bool
    ensures { IsTrue result ↔ All (λ n. All (λ e. is_some (entry_at places.now e) ≡ true) n.waits) nodes.now }
{
    for node in nodes {
        if !are_known(places, node.waits) {
            return false;
        }
    }
    true
}

/// Whether nodes are linked.
fn are_refs_linked(alloc: Global, nodes: &[NodeRef<'_>]) -> Result<bool, AllocError>
    ensures { IfOk result (λ linked. IsTrue linked ↔ AreLinked nodes.now) }
{
    let events = events_of(alloc, nodes)?;
    let places = first_places(alloc, events.as_slice())?;
    if !are_first(&places, events.as_slice()) {
        return Ok(false);
    }
    Ok(are_waits_known(&places, nodes))
}

/// Whether the nodes' events are all different, and each event that a node waits on is that of some node.
pub fn are_linked(alloc: Global, nodes: &[NodeIn]) -> Result<bool, Memory>
    ensures { IfOk result (λ linked. IsTrue linked ↔ AreLinked nodes.now) }
{
    let refs = refs_of(alloc, nodes)?;
    let linked = are_refs_linked(alloc, refs.as_slice())?;
    Ok(linked)
}
