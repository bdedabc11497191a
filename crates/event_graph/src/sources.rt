//! For each node the nodes that it waits on, one list after the other.

ghost use Rattle.std.specs.Prelude.{◌≡◌, ◌++◌, ◌+◌, ◌-◌, ◌<◌, ◌≤◌, ◌^◌, ℕ, All, [], drop, length, map, slice_index, slice_index_or, take, IfOk, OnOk};
ghost use Rattle.std.specs.Option.{IsSomeAnd};
ghost use Rattle.id_maps.specs.Entries.{entry_at};
ghost use Rattle.semantics.specs.ReplayOrder.{waits_at};
ghost use Rattle.event_graph.specs.EventPlaces.{place_or_zero};

use crate::node::NodeRef;
use crate::places::place_of;
use id_maps::IdMap;
use std::alloc::{AllocError, Global};
use std::marker::Model;

/// Lists of numbers in one list: where each starts, and where the last ends.
#[derive(Drop)]
pub(crate) struct Sources {
    numbers: Vec<u32>,
    starts: Vec<usize>,
}

impl Model for Sources {
    ghost use Rattle.std.specs.Prelude.{List, ℕ, ◌≡◌, ◌∷◌, drop};
    ghost use Rattle.event_graph.specs.FlatLists.{lists_from, Fit};

    ghost Value = { List (List ℕ) };

    ghost view = { λ s. lists_from 0 s.numbers.items (drop 1 s.starts.items) };

    ghost invariant = { λ s. (s.starts.items ≡ 0 ∷ drop 1 s.starts.items) × Fit 0 s.numbers.items (drop 1 s.starts.items) };
}

/// How many events nodes wait on, so that room is taken at once. No answer rests on it.
fn wait_count(nodes: &[NodeRef<'_>]) -> usize {
    let mut count = 0usize;
    for node in nodes {
        count = count.saturating_add(node.waits.len());
    }
    count
}

/// Adds where the nodes of these events stand.
fn add_places(
    numbers: &mut Vec<u32>,
    places: &IdMap<usize>,
    events: &[u32],
) -> Result<(), AllocError>
    requires { All (λ e. IsSomeAnd (entry_at places.now e) (λ p. p < 2 ^ 32)) events.now }
    ensures { OnOk result (numbers.new.items
        ≡ numbers.old.items ++ map (place_or_zero (entry_at places.now)) events.now) }
{
    for event in events {
        numbers.push(place_of(places, *event) as u32)?;
    }
    Ok(())
}

/// The numbers between the start in a place and the next.
fn part<'a>(numbers: &'a [u32], starts: &[usize], k: usize) -> &'a [u32]
    requires next { k + 1 < length starts.now }
    requires ascending { slice_index starts.now k ≤ slice_index starts.now (k + 1) }
    requires within { slice_index starts.now (k + 1) ≤ length numbers.now }
    ensures { result.now ≡ take (slice_index starts.now (k + 1) - slice_index starts.now k)
        (drop (slice_index starts.now k) numbers.now) }
{
    &numbers[starts[k]..starts[k + 1]]
}

impl Sources {
    /// For each node where the nodes stand that it waits on.
    pub(crate) fn of(
        alloc: Global,
        nodes: &[NodeRef<'_>],
        places: &IdMap<usize>,
    ) -> Result<Sources, AllocError>
        requires { (k : ℕ) → All (λ e. IsSomeAnd (entry_at places.now e) (λ p. p < 2 ^ 32)) (waits_at nodes.now k) }
        ensures { IfOk result (λ s. s ≡ map (λ n. map (place_or_zero (entry_at places.now)) n.waits) nodes.now) }
    {
        let mut numbers = Vec::with_capacity(alloc, wait_count(nodes))?;
        let mut starts = Vec::with_capacity(alloc, nodes.len().saturating_add(1))?;
        starts.push(0)?;
        for node in nodes {
            add_places(&mut numbers, places, node.waits)?;
            starts.push(numbers.as_slice().len())?;
        }
        Ok(Sources { numbers, starts })
    }

    /// The list in a place.
    pub(crate) fn list(&self, k: usize) -> &[u32]
        requires { k < length self.now }
        ensures { result.now ≡ slice_index_or self.now k [] }
    {
        part(self.numbers.as_slice(), self.starts.as_slice(), k)
    }
}
