//! The steps of the nodes of a log, what instances hold, and views of that by a privilege.
//!
//! `steps_of` goes over the moves of a node in the order in which they are made, of a whole log or of a cut
//! one, exactly as `Steps` of `semantics` defines them; `actions_of` says besides by which requirement each
//! is made. `push_field_moves` says what it would do if all points of a space were one, which is enough
//! where whatever conflicts in a field of an instance is ordered. `Store` is what the cells of instances
//! hold, seen as a map from cells to values; it holds them by number, in an `Arena` of `shared_values`, so
//! that a copy takes constant time. A `View` of it reads, writes or reduces only as its privilege allows.
//! Begin with `of_nodes.rt` for the steps and with `store.rt` for the store.
#![tactic(auto)]

mod act;
mod apply;
mod field_moves;
mod iterator;
mod of_nodes;
mod spot;
mod start;
mod store;
mod sweep;
mod view;

pub use act::Action;
pub use field_moves::push_field_moves;
pub use iterator::{Actions, Steps};
pub use of_nodes::{actions_of, actions_on, steps, steps_of, steps_on};
pub use store::Store;
pub use view::View;
