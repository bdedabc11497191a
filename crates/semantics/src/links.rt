//! Reads that are asked for, and where what they read came from.

/// A read of a task that is asked for: the task, the number of its requirement, a point and a field. None of these has to be in the log.
#[derive(Clone, Copy, PartialEq, Eq)]
pub struct Ask {
    pub task: u32,
    pub req: u32,
    pub point: u64,
    pub field: u32,
}

/// How a value came into a cell: a task wrote it, an operation put it there or copied it, or the cell held it at the start.
#[derive(Clone, Copy, PartialEq, Eq)]
pub enum LinkKind {
    Write,
    Put,
    Copy,
    Start,
}

/// One link of the chain that leads from a read back to where its value came from.
#[derive(Clone, Copy, PartialEq, Eq)]
pub struct Link {
    pub kind: LinkKind,
    /// The event of the operation, and 0 for the start.
    pub done: u32,
    /// The instance into which the value came.
    pub inst: u32,
    /// How often something was added to it there, by reductions and folds, before it was read.
    pub adds: u32,
}
