//! Which nodes of a graph are before which, marked in blocks of 1,024 by their places in the replay order.
//!
//! `Reach::before` says exactly whether a chain of waits leads from one node to another, at once;
//! `first_not_before` and `before_some` ask it of many. A node's row of marks is joined from the rows of
//! those that it waits for; blocks that are none or all take no room, and rows share blocks that are alike.
//! `BlockReach` marks the nodes of one block alone, in at most 17 MB: what it marks is before, and what it
//! does not mark may be before, too. Begin with `reach.rt`; `rows.rt` keeps the rows, `building.rt` and
//! `joining.rt` make them; `block_reach.rt` is apart from these.
#![tactic(auto)]

mod block;
mod block_reach;
mod building;
mod column;
mod joining;
mod laws;
mod mixed;
mod pushing;
mod reach;
mod rows;
mod search;
mod tags;
mod unions;
mod waits;

pub use block_reach::BlockReach;
pub use laws::before_is_transitive;
pub use memory::Memory;
pub use reach::Reach;
