//! Why the nodes of a graph have no order.

use crate::node::EventList;
use std::alloc::AllocError;

/// Why nodes have no order.
#[derive(Drop)]
pub enum Stuck {
    /// The events of nodes on a cycle: each is waited on by the next, and the last by the first.
    Cycle(EventList),
    /// Memory ran out.
    Memory,
}

impl From<AllocError> for Stuck {
    ghost use Rattle.std.specs.Prelude.{◌≡◌};
    ghost use Rattle.event_graph.specs.declared.stuck.Stuck.TheVariants.{Memory};

    ghost from_gives = { λ _ e. e ≡ Memory };

    fn from(_: AllocError) -> Stuck {
        Stuck::Memory
    }
}
