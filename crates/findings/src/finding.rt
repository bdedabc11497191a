//! What a command says of a log.

use crate::lists::{DepList, EventList, PairList, WhyList};
use spy_grammar::Code;
use value_terms::Value;

/// A pair of items that interfere, and the least place at which they do.
#[derive(Clone, Copy, PartialEq, Eq)]
pub struct Dep {
    /// Whether the order of the two is fixed; else they take turns in either order.
    pub before: bool,
    /// The item that is earlier in serial order.
    pub a: u32,
    /// The item that is later in serial order.
    pub b: u32,
    /// The region tree of the least place at which they interfere.
    pub tree: u32,
    /// The point of that place.
    pub point: u64,
    /// The field of that place.
    pub field: u32,
}

/// A read of a task that was asked for: the task, the number of its requirement, a point and a field.
#[derive(Clone, Copy, PartialEq, Eq)]
pub struct WhyAsk {
    pub task: u32,
    pub req: u32,
    pub point: u64,
    pub field: u32,
}

/// How a value came into an instance: a task wrote it, an operation put it there or copied it, or it was there at the start.
#[derive(Clone, Copy, PartialEq, Eq)]
pub enum WhyKind {
    Write,
    Put,
    Copy,
    Start,
}

/// One link of the chain that leads from a read back to where its value came from.
#[derive(Clone, Copy, PartialEq, Eq)]
pub struct WhyLink {
    pub kind: WhyKind,
    /// The event of the operation, and 0 for the start.
    pub done: u32,
    /// The instance into which the value came.
    pub inst: u32,
    /// How often something was added to it there before it was read.
    pub adds: u32,
}

/// A report. Places are named by region tree, or by instance, with point and field.
#[derive(Drop)]
#[rattlefmt::skip]
pub enum Finding {
    /// Every read got the value that the sequential program reads.
    Accepted { tasks: u32, operations: u32, reads: u64 },
    /// Every two tasks that interfere are ordered. So many pairs interfere.
    Ordered { tasks: u32, pairs: u64 },
    /// The pairs of items that interfere, and how many of them are of each kind.
    Deps { list: DepList, items: u32, before: u64, turn: u64 },
    /// The listed waits that others imply, each by the event of its node and the one that is waited for, and how many waits are listed in all.
    Spare { list: PairList, waits: u64 },
    /// No child of a group may do more than the group. So many tasks are members, there are so many groups, and so many pairs of these may run side by side.
    Nested { tasks: u32, groups: u32, free: u64 },
    /// Events that wait on each other in a cycle.
    Cycle { events: EventList },
    /// Two nodes, named by their events, that reach a place of an instance in either order.
    Race { a: u32, b: u32, inst: u32, point: u64, field: u32 },
    /// Two tasks that interfere and are not ordered, and the least place at which they interfere.
    Unordered { t: u32, u: u32, tree: u32, point: u64, field: u32 },
    /// A read of a requirement of a task, named by its place, that gets another value than the sequential program reads.
    Differ { task: u32, req: u32, point: u64, field: u32, got: Value, want: Value },
    /// The log has no such read.
    NoRead { task: u32, req: u32, point: u64, field: u32 },
    /// A requirement of a task, if `leaf`, or of a group, and a place at which the group that it is a child of may not do what it asks for.
    Unlicensed { leaf: bool, child: u32, req: u32, group: u32, tree: u32, point: u64, field: u32 },
    /// The links from a read back to where its value came from.
    Why { ask: WhyAsk, links: WhyList },
    /// The rule that the log breaks, and the line that breaks it.
    Fault { line: u32, code: Code },
    /// The words of the command are not taken.
    Usage,
    /// Reading the log failed.
    CannotRead,
}
