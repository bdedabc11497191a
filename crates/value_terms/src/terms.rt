//! What a value is made of.

/// What a value was before anything was added to it.
#[derive(Clone, Copy, PartialEq, Eq)]
pub enum Base {
    /// Unknown.
    Raw,
    /// What a region holds at the start.
    Init,
    /// The identity of every operator, from which reductions that are applied later begin.
    Ident,
    /// What a fill with this constant put.
    Const(u32),
    /// What this task wrote.
    Out(u32),
}

/// What a reduction of a task adds to a place.
#[derive(Clone, Copy, PartialEq, Eq)]
pub struct Contribution {
    /// The id of the task.
    pub task: u32,
    /// The number of the requirement among those of its task, from 1.
    pub req: u32,
}
