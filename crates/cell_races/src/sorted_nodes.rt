//! Nodes in replay order.

use event_graph::{Graph, Order};

/// The graph of the nodes of a log, and their order.
#[derive(Clone, Copy)]
pub struct SortedNodes<'g> {
    pub graph: &'g Graph,
    pub order: &'g Order,
}
