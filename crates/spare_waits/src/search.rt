//! The search for waits that others imply.

ghost use Rattle.std.specs.Prelude.{◌≡◌, ℕ, ◌<◌, ◌≤◌, ◌+◌, ◌∷◌, length, Some, slice_get, Contains, IfOk, OnOk};
ghost use Rattle.vocabulary.specs.Prelude.{ListedWait};
ghost use Rattle.semantics.specs.ReplayOrder.{waits_at};
ghost use Rattle.semantics.specs.Spare.{AreSpareWaits, HaveSameBefore, without};
ghost use Rattle.event_graph.specs.Orders.{IsOrderOf};
ghost use Rattle.reach_marks.specs.Reached.{AreMarksOf};
ghost use Rattle.spare_laws.specs.Listed.{AreUpTo, listed_count};

use crate::list::{SpareList, SpareWait, add_marked};
use crate::marks::also_repeated;
use event_graph::{Graph, Order};
use memory::Memory;
use reach_marks::Reach;
use std::alloc::Global;

/// Adds the spare waits of a node.
fn add_node(
    alloc: Global,
    graph: &Graph,
    reach: &Reach,
    node: usize,
    list: &mut Vec<SpareWait>,
) -> Result<(), Memory>
    requires node { node < length graph.now }
    requires reach { AreMarksOf graph.now reach.now }
    requires list { AreUpTo graph.now node list.old.items }
    ensures { OnOk result (AreUpTo graph.now (node + 1) list.new.items) }
{
    let _linked = graph.len();
    let waits = graph.waits_of(alloc, node)?;
    let before = reach.before_some(alloc, waits.as_slice())?;
    let marks = also_repeated(alloc, waits.as_slice(), before.as_slice())?;
    add_marked(list, node, marks.as_slice())?;
    Ok(())
}

/// The spare waits of a graph, of which these are the order and the marks. Without them the same nodes are before the same ones; without any listed wait more they are not.
pub fn spare(
    alloc: Global,
    graph: &Graph,
    order: &Order,
    reach: &Reach,
) -> Result<SpareList, Memory>
    requires order { IsOrderOf graph.now order.now }
    requires reach { AreMarksOf graph.now reach.now }
    ensures spare { IfOk result (AreSpareWaits graph.now) }
    ensures few { IfOk result (λ l. length l ≤ listed_count graph.now) }
    ensures same { IfOk result (λ l. HaveSameBefore (without l graph.now) graph.now) }
    ensures least { IfOk result (λ l. (w : ListedWait) (event : ℕ)
        → slice_get (waits_at graph.now w.node) w.k ≡ Some event → (Contains l w → ⊥)
        → HaveSameBefore (without (w ∷ l) graph.now) (without l graph.now) → ⊥) }
{
    let _linked = graph.len();
    let mut list = Vec::new(alloc);
    for node in 0..graph.len() {
        add_node(alloc, graph, reach, node, &mut list)?;
    }
    Ok(SpareList::from_vec(list))
}
