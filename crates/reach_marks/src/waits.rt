//! What nodes wait on, by their places in the replay order.

ghost use Rattle.std.specs.Prelude.{◌≡◌, ℕ, ◌<◌, ◌↔◌, length, slice_index, map, All, Contains, IfOk};
ghost use Rattle.vocabulary.specs.Prelude.{AreLinked, WaitsOn};
ghost use Rattle.semantics.specs.ReplayOrder.{replay_order};
ghost use Rattle.reach_marks.specs.Places.{ArePlacesIn};

use event_graph::Graph;
use memory::Memory;
use std::alloc::{AllocError, Global};

/// The places of these nodes.
pub(crate) fn places_at(
    alloc: Global,
    places: &[usize],
    nodes: &[usize],
) -> Result<Vec<usize>, AllocError>
    requires { All (λ k. k < length places.now) nodes.now }
    ensures { IfOk result (λ v. v.items ≡ map (λ k. slice_index places.now k) nodes.now) }
{
    let mut found = Vec::with_capacity(alloc, nodes.len())?;
    for k in nodes {
        found.push(places[*k])?;
    }
    Ok(found)
}

/// The places of the nodes that the node at place `p` waits on.
pub(crate) fn waits_in(
    alloc: Global,
    graph: &Graph,
    order: &[usize],
    places: &[usize],
    p: usize,
) -> Result<Vec<usize>, Memory>
    requires p { p < length order.now }
    requires linked { AreLinked graph.now }
    requires order { order.now ≡ replay_order graph.now }
    requires places { ArePlacesIn (length graph.now) order.now places.now }
    ensures { IfOk result (λ v. (w : ℕ) → Contains v.items w
        ↔ ((w < p) × WaitsOn graph.now (slice_index order.now p) (slice_index order.now w))) }
{
    let waits = graph.waits_of(alloc, order[p])?;
    let found = places_at(alloc, places, waits.as_slice())?;
    Ok(found)
}
