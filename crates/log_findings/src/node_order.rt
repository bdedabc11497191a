//! The nodes of a log in replay order.

ghost use Rattle.std.specs.Prelude.{◌≡◌, ◌<◌, ◌^◌, length, IfOk, IfErr};
ghost use Rattle.vocabulary.specs.Prelude.{AreLinked, graph_of};
ghost use Rattle.event_graph.specs.Orders.{IsOrderOf};
ghost use Rattle.log_findings.specs.Sorted.{AreSorted, IsUnsorted};

use event_graph::{EventList, Graph, Order, Stuck};
use memory::Memory;
use semantics::LogNode;
use std::alloc::Global;

/// The graph of the nodes of a log, and their order.
#[derive(Drop)]
pub struct Sorting {
    pub graph: Graph,
    pub order: Order,
}

/// Why the nodes of a log have no order.
#[derive(Drop)]
pub enum Unsorted {
    /// The events of the cycle that is shown.
    Cycle(EventList),
    /// Memory ran out.
    Memory,
}

impl From<Memory> for Unsorted {
    ghost use Rattle.std.specs.Prelude.{◌≡◌};
    ghost use Rattle.log_findings.specs.declared.node_order.Unsorted.TheVariants.{Memory};

    ghost from_gives = { λ _ e. e ≡ Memory };

    fn from(_: Memory) -> Unsorted {
        Unsorted::Memory
    }
}

/// The order of a graph, or the cycle that is shown.
fn order_of(alloc: Global, graph: &Graph) -> Result<Order, Unsorted>
    ensures order { IfOk result (IsOrderOf graph.now) }
    ensures unsorted { IfErr result (IsUnsorted graph.now) }
{
    match graph.order(alloc) {
        Ok(order) => Ok(order),
        Err(Stuck::Cycle(events)) => Err(Unsorted::Cycle(events)),
        Err(Stuck::Memory) => Err(Unsorted::Memory),
    }
}

/// The nodes of a log sorted, or the cycle that is shown.
pub(crate) fn sorting_of(alloc: Global, nodes: &[LogNode]) -> Result<Sorting, Unsorted>
    requires few { length nodes.now < 2 ^ 32 }
    requires linked { AreLinked (graph_of nodes.now) }
    ensures sorted { IfOk result (AreSorted (graph_of nodes.now)) }
    ensures unsorted { IfErr result (IsUnsorted (graph_of nodes.now)) }
{
    let graph = Graph::of_log(alloc, nodes)?;
    let order = order_of(alloc, &graph)?;
    Ok(Sorting { graph, order })
}
