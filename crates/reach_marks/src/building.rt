//! The rows of the nodes of a graph.

ghost use Rattle.std.specs.Prelude.{◌≡◌, ℕ, ◌<◌, ◌^◌, length, IfOk};
ghost use Rattle.vocabulary.specs.Prelude.{AreLinked};
ghost use Rattle.semantics.specs.ReplayOrder.{replay_order};
ghost use Rattle.reach_marks.specs.Places.{ArePlacesIn};
ghost use Rattle.reach_marks.specs.Reached.{AreRows, AreCompact};

use crate::joining::with_row;
use crate::rows::Rows;
use crate::waits::waits_in;
use event_graph::Graph;
use memory::Memory;
use std::alloc::Global;

/// The rows of the nodes of an order.
pub(crate) fn rows_of(
    alloc: Global,
    graph: &Graph,
    order: &[usize],
    places: &[usize],
) -> Result<Rows, Memory>
    requires few { length order.now < 2 ^ 32 }
    requires linked { AreLinked graph.now }
    requires order { order.now ≡ replay_order graph.now }
    requires places { ArePlacesIn (length graph.now) order.now places.now }
    ensures each { IfOk result (λ v. length v ≡ length order.now) }
    ensures compact { IfOk result (λ v. AreCompact v) }
    ensures rows { IfOk result (λ v. AreRows graph.now order.now v) }
{
    let mut rows = Rows::with_room(alloc, order.len())?;
    for p in 0..order.len() {
        let waits = waits_in(alloc, graph, order, places, p)?;
        rows = with_row(alloc, rows, waits.as_slice(), order.len())?;
    }
    Ok(rows)
}
