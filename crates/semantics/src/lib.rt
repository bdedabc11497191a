//! What a log means: definitions, and no algorithm. `log_laws` has laws over them.
//!
//! Whoever wants to trust the program reads `specs` here, in the order of `specs/Lib.antt`: what a log
//! declares, points and places, how items interfere, the sequential program, events and their order, steps,
//! executions, interleavings, races, reads, and then the faults of a log and what is shown. Each definition
//! has a sentence above it, and none knows how the program finds what it finds. The `src` has the plain
//! types that they speak of.
#![tactic(auto)]

mod command;
mod faults;
mod groups;
mod laws;
mod limits;
mod links;
mod moves;
mod places;
mod tables;
mod waits;

pub use command::Command;
pub use faults::Fault;
pub use groups::{Child, Group, GroupMember, GroupReq, Unlicensed};
pub use laws::nodes_are_of_records;
pub use limits::{
    DEEPEST, MOST_ACCESSES, MOST_ATOMS, MOST_BYTES, MOST_CELLS, MOST_COLOURS, MOST_GROUPS,
    MOST_LOAD, MOST_POINTS, MOST_READS, MOST_RECORDS,
};
pub use links::{Ask, Link, LinkKind};
pub use moves::Move;
pub use places::{Cell, Place};
pub use tables::{
    FieldSpace, Inst, Item, ItemBody, LogNode, Map, Op, Part, Req, Serial, Sub, Tree,
};
pub use waits::ListedWait;
