//! The graph of the nodes of a recorded run.

ghost use Rattle.std.specs.Prelude.{◌≡◌, ◌≢◌, ℕ, length, map, ◌<◌, ◌≤◌, ◌^◌, None, option_map, All, Contains, IfOk, IfErr, IfSome, IfNone, Some, slice_get, slice_index, ◌↔◌};
ghost use Rattle.vocabulary.specs.Prelude.{AreLinked, WaitsOn, graph_of};
ghost use Rattle.semantics.specs.ReplayOrder.{done_at, waits_at, replay_order, shown_cycle};
ghost use Rattle.event_graph.specs.EventPlaces.{AreSources};
ghost use Rattle.event_graph.specs.Orders.{IsOrderOf, IsWait, IsWhy, AreCycleEvents, event_at};

use crate::backward::{positions, wait_back};
use crate::cycle_walk::{from_its_least, walk_from};
use crate::marks::{first_unmarked, marks_of};
use crate::node::{EventList, NodeIn, NodeRef, refs_in, refs_of};
use crate::order::Order;
use crate::places::{events_of, first_places};
use crate::rounds::order_by;
use crate::sources::Sources;
use crate::stuck::Stuck;
use crate::waiters::waiters_of;
use id_maps::IdMap;
use memory::Memory;
use semantics::LogNode;
use std::alloc::{AllocError, Global};
use std::marker::Model;

/// Nodes and their waits. A node is named by its position, or by its event.
#[derive(Drop)]
pub struct Graph {
    done: Vec<u32>,
    sources: Sources,
    places: IdMap<usize>,
}

impl Model for Graph {
    ghost use Rattle.std.specs.Prelude.{List};
    ghost use Rattle.id_maps.specs.Entries.{entry_at};
    ghost use Rattle.vocabulary.specs.Prelude.{Node};
    ghost use Rattle.event_graph.specs.EventPlaces.{AreKept, nodes_by};

    ghost Value = { List Node };

    ghost view = { λ g. nodes_by g.done.items g.done.items g.sources };

    ghost invariant = { λ g. AreKept g.done.items g.sources (entry_at g.places) };
}

/// The event in a place.
fn event_in(done: &[u32], k: usize) -> u32
    requires { k < length done.now }
    ensures { result ≡ slice_index done.now k }
{
    done[k]
}

/// The events of these nodes.
fn events_at(alloc: Global, graph: &Graph, ks: &[usize]) -> Result<EventList, AllocError>
    requires { All (λ k. k < length graph.now) ks.now }
    ensures { IfOk result (λ v. v ≡ map (event_at graph.now) ks.now) }
{
    let mut events = Vec::with_capacity(alloc, ks.len())?;
    for k in ks {
        events.push(graph.event(*k))?;
    }
    Ok(EventList::from_vec(events))
}

/// The same numbers, as positions.
fn as_positions(alloc: Global, numbers: &[u32]) -> Result<Vec<usize>, AllocError>
    ensures { IfOk result (λ v. v.items ≡ numbers.now) }
{
    let mut positions = Vec::with_capacity(alloc, numbers.len())?;
    for number in numbers {
        positions.push(*number as usize)?;
    }
    Ok(positions)
}

impl Graph {
    // The graph of these nodes.
    fn of(alloc: Global, nodes: &[NodeRef<'_>]) -> Result<Graph, AllocError>
        requires few { length nodes.now < 2 ^ 32 }
        requires linked { AreLinked nodes.now }
        ensures { IfOk result (λ g. g ≡ nodes.now) }
    {
        let done = events_of(alloc, nodes)?;
        let places = first_places(alloc, done.as_slice())?;
        let sources = Sources::of(alloc, nodes, &places)?;
        Ok(Graph {
            done,
            sources,
            places,
        })
    }

    /// The graph of these nodes.
    pub fn build(alloc: Global, nodes: Vec<NodeIn>) -> Result<Graph, Memory>
        requires few { length nodes.items < 2 ^ 32 }
        requires linked { AreLinked nodes.items }
        ensures { IfOk result (λ g. g ≡ nodes.items) }
    {
        let refs = refs_of(alloc, nodes.as_slice())?;
        let graph = Graph::of(alloc, refs.as_slice())?;
        Ok(graph)
    }

    /// The graph of the nodes of a log.
    pub fn of_log(alloc: Global, nodes: &[LogNode]) -> Result<Graph, Memory>
        requires few { length nodes.now < 2 ^ 32 }
        requires linked { AreLinked (graph_of nodes.now) }
        ensures { IfOk result (λ g. g ≡ graph_of nodes.now) }
    {
        let refs = refs_in(alloc, nodes)?;
        let graph = Graph::of(alloc, refs.as_slice())?;
        Ok(graph)
    }

    /// How many nodes there are.
    pub fn len(&self) -> usize
        ensures count { result ≡ length self.now }
        // What every graph keeps.
        ensures few { length self.now < 2 ^ 32 }
        ensures linked { AreLinked self.now }
    {
        self.done.as_slice().len()
    }

    // The event of a node.
    fn event(&self, node: usize) -> u32
        requires { node < length self.now }
        ensures { done_at self.now node ≡ Some result }
    {
        event_in(self.done.as_slice(), node)
    }

    /// The nodes that a node waits on, as it lists their events.
    pub(crate) fn sources(&self, node: usize) -> &[u32]
        requires { node < length self.now }
        ensures sources { AreSources self.now node result.now }
        ensures linked { AreLinked self.now }
    {
        self.sources.list(node)
    }

    /// The node of an event, or `None` where no node has it.
    pub fn node_of(&self, event: u32) -> Option<usize>
        ensures some { IfSome result (λ k. done_at self.now k ≡ Some event) }
        ensures none { IfNone result ((k : ℕ) → done_at self.now k ≢ Some event) }
    {
        self.places.get(event)
    }

    /// The node whose event a node lists in place `k`, from 0, or `None` where it is no node or lists no more.
    pub fn wait_at(&self, node: usize, k: usize) -> Option<usize>
        ensures some { IfSome result (IsWait self.now node k) }
        ensures none { IfNone result (length (waits_at self.now node) ≤ k) }
    {
        if node < self.len() {
            let sources = self.sources(node);
            if k < sources.len() {
                return Some(sources[k] as usize);
            }
        }
        None
    }

    /// The nodes that a node waits on, as it lists them.
    pub fn waits_of(&self, alloc: Global, node: usize) -> Result<Vec<usize>, Memory>
        requires { node < length self.now }
        ensures each { IfOk result (λ v. length v.items ≡ length (waits_at self.now node)) }
        ensures listed { IfOk result (λ v. (k on : ℕ) → slice_get v.items k ≡ Some on
            → IsWait self.now node k on) }
        ensures waits { IfOk result (λ v. (on : ℕ) → Contains v.items on ↔ WaitsOn self.now node on) }
    {
        let found = as_positions(alloc, self.sources(node))?;
        Ok(found)
    }

    // The nodes that are ever taken, in replay order: their own, where each waits on earlier ones alone.
    fn taken(&self, alloc: Global) -> Result<Vec<usize>, AllocError>
        ensures { IfOk result (λ v. v.items ≡ replay_order self.now) }
    {
        if wait_back(self) {
            let all = positions(alloc, self.len())?;
            return Ok(all);
        }
        let waiters = waiters_of(alloc, self)?;
        order_by(alloc, self, &waiters)
    }

    // The cycle that is shown, if these are the nodes that are ever taken.
    fn cycle(&self, alloc: Global, taken: &[usize]) -> Result<Option<Vec<usize>>, AllocError>
        requires { taken.now ≡ replay_order self.now }
        ensures cycle { IfOk result (λ o. option_map (λ c. c.items) o ≡ shown_cycle self.now) }
        ensures linked { AreLinked self.now }
    {
        let marks = marks_of(alloc, self.len(), taken)?;
        match first_unmarked(marks.as_slice()) {
            Some(start) => {
                let round = walk_from(alloc, self, marks.as_slice(), start)?;
                let turned = from_its_least(alloc, round.as_slice())?;
                Ok(Some(turned))
            }
            None => Ok(None),
        }
    }

    // The order of all nodes, if these are they.
    fn whole(&self, alloc: Global, taken: Vec<usize>) -> Result<Order, AllocError>
        requires taken { taken.items ≡ replay_order self.now }
        requires none { shown_cycle self.now ≡ None }
        ensures { IfOk result (IsOrderOf self.now) }
    {
        let order = Order::of(alloc, self.len(), taken)?;
        Ok(order)
    }

    // The events of the cycle that is shown.
    fn shown(&self, alloc: Global, cycle: &[usize]) -> Result<EventList, AllocError>
        requires shown { shown_cycle self.now ≡ Some cycle.now }
        requires linked { AreLinked self.now }
        ensures { IfOk result (AreCycleEvents self.now) }
    {
        let events = events_at(alloc, self, cycle)?;
        Ok(events)
    }

    /// The order in which the nodes are replayed; where there is a cycle, the events of the one that is shown.
    pub fn order(&self, alloc: Global) -> Result<Order, Stuck>
        ensures order { IfOk result (IsOrderOf self.now) }
        ensures stuck { IfErr result (IsWhy self.now) }
    {
        let taken = self.taken(alloc)?;
        match self.cycle(alloc, taken.as_slice())? {
            None => Ok(self.whole(alloc, taken)?),
            Some(cycle) => Err(Stuck::Cycle(self.shown(alloc, cycle.as_slice())?)),
        }
    }
}
