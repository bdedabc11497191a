//! The order in which the nodes of a graph are replayed.

ghost use Rattle.std.specs.Prelude.{◌≡◌, ◌≢◌, ℕ, ◌<◌, ◌==◌, All, AllPairs, Contains, IfOk, is_some, length, nat_lt, position, slice_get, slice_index};

use std::alloc::{AllocError, Global};
use std::marker::Model;

/// The nodes of a graph, each once, in the order in which they are replayed. A node is named by its position.
#[derive(Drop)]
pub struct Order {
    nodes: Vec<usize>,
    places: Vec<usize>,
}

impl Model for Order {
    ghost use Rattle.std.specs.Prelude.{List, ℕ};
    ghost use Rattle.event_graph.specs.Inverse.{AreInverse};

    ghost Value = { List ℕ };

    ghost view = { λ o. o.nodes.items };

    ghost invariant = { λ o. AreInverse o.nodes.items o.places.items };
}

/// For each node below `count` its place among these.
fn places_in(alloc: Global, count: usize, nodes: &[usize]) -> Result<Vec<usize>, AllocError>
    requires within { All (λ n. n < count) nodes.now }
    requires apart { AllPairs (λ m n. m ≢ n) nodes.now }
    ensures each { IfOk result (λ v. length v.items ≡ count) }
    ensures placed { IfOk result (λ v. (p : ℕ) → p < length nodes.now
        → slice_index v.items (slice_index nodes.now p) ≡ p) }
{
    let mut places = vec![in alloc; 0; count]?;
    for p in 0..nodes.len() {
        places[nodes[p]] = p;
    }
    Ok(places)
}

/// The number in place `k`, or `None` past the last.
fn number_at(numbers: &[usize], k: usize) -> Option<usize>
    ensures { result ≡ slice_get numbers.now k }
{
    numbers.get(k).copied()
}

impl Order {
    ghost use Rattle.event_graph.specs.Inverse.{AreInverse};

    /// The order of `count` nodes, as they stand here.
    pub(crate) fn of(alloc: Global, count: usize, nodes: Vec<usize>) -> Result<Order, AllocError>
        requires within { All (λ n. n < count) nodes.items }
        requires apart { AllPairs (λ m n. m ≢ n) nodes.items }
        requires whole { (n : ℕ) → n < count → Contains nodes.items n }
        ensures { IfOk result (λ o. o ≡ nodes.items) }
    {
        let places = places_in(alloc, count, nodes.as_slice())?;
        Ok(Order { nodes, places })
    }

    /// The nodes in order.
    pub fn as_slice(&self) -> &[usize]
        ensures { result.now ≡ self.now }
    {
        self.nodes.as_slice()
    }

    /// For each node its place, from 0.
    pub fn places(&self) -> &[usize]
        ensures { AreInverse self.now result.now }
    {
        self.places.as_slice()
    }

    /// The `k`-th node, from 0, or `None` past the last.
    pub fn at(&self, k: usize) -> Option<usize>
        ensures { result ≡ slice_get self.now k }
    {
        number_at(self.nodes.as_slice(), k)
    }

    /// The place of a node, from 0, or `None` where the graph has no such node.
    pub fn place(&self, node: usize) -> Option<usize>
        ensures place { result ≡ position (λ n. n == node) self.now }
        ensures within { is_some result ≡ nat_lt node (length self.now) }
    {
        number_at(self.places.as_slice(), node)
    }
}
