//! The graph of the nodes of a recorded run, and the order in which they are replayed.
//!
//! `Graph::order` gives the replay order of the nodes, or the cycle that is shown, each exactly where there
//! is one: the least node whose waits are all met is taken next, and from the first node that is never taken
//! a walk along stuck waits comes to a cycle. The definitions are in `ReplayOrder` of `semantics`. Begin
//! with `graph.rt`; `sources.rt` keeps what each node waits on, `order.rt` has the order, and `stuck.rt` the
//! cycle.
#![tactic(auto)]

mod backward;
mod cycle_walk;
mod graph;
mod linked;
mod marks;
mod node;
mod order;
mod places;
mod queue;
mod rounds;
mod sources;
mod stuck;
mod waiters;

pub use graph::Graph;
pub use linked::are_linked;
pub use memory::Memory;
pub use node::{EventList, NodeIn};
pub use order::Order;
pub use stuck::Stuck;
