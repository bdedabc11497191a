//! Laws of what a log means, on which the program's parts rest. Each is the contract of a function with nothing to do.
//!
//! The main ones: in a log without a race two steps that nothing orders may change places (`swap_law`,
//! `neighbours_may_change_places`), so all interleavings end in one state and read the same (`one_answer`,
//! `faultless_logs_have_one_answer`); the replay order is an interleaving, and lists each node once; a text
//! spells one log. Begin with `answer_laws.rt` and `step_laws.rt`.
#![tactic(auto)]

mod answer_laws;
mod order_laws;
mod read_laws;
mod serial_laws;
mod step_laws;

pub use answer_laws::{one_answer, swap_law};
pub use order_laws::{replay_order_lists, stuck_nodes_have_cycles};
pub use read_laws::{one_log, printed_logs_are_read, read_logs_are_good};
pub use serial_laws::{item_ids_are_apart, items_are_listed, serial_order_lists};
pub use step_laws::{
    faultless_logs_are_linked, faultless_logs_have_one_answer, faultless_nodes_conflict_by_reads,
    neighbours_may_change_places, replay_is_an_interleaving, steps_are_listed_once,
};
