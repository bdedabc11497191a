//! What a log declares, entry by entry. A number that names a thing is its id, unless it is said to be a position.

use privilege::{Coherence, Priv};
use spy_grammar::{InstKind, Nums};

/// A partition: the space that it splits, and whether its subspaces have to be disjoint.
#[derive(Clone, Copy, PartialEq, Eq)]
pub struct Part {
    pub id: u32,
    pub space: u32,
    pub disjoint: bool,
}

/// A subspace: the space that a partition has at a colour.
#[derive(Clone, Copy, PartialEq, Eq)]
pub struct Sub {
    pub part: u32,
    pub colour: u32,
    pub space: u32,
}

/// A field space: its fields, ascending.
#[derive(Drop)]
pub struct FieldSpace {
    pub id: u32,
    pub fields: Nums,
}

/// A region tree: its root space and its field space.
#[derive(Clone, Copy, PartialEq, Eq)]
pub struct Tree {
    pub id: u32,
    pub space: u32,
    pub fspace: u32,
}

/// Items that a line lists in serial order.
#[derive(Drop)]
pub struct Serial {
    pub line: u32,
    pub ids: Nums,
}

/// The instance to which some fields of a requirement are mapped. The requirement is named by the position of its item, and by its number there.
#[derive(Drop)]
pub struct Map {
    pub item: usize,
    pub number: u32,
    pub fields: Nums,
    pub inst: u32,
}

/// What an item is.
#[derive(Drop)]
pub enum ItemBody {
    /// A task. What it does is said by its requirements.
    Task,
    /// A fill puts the constant `n` at each place that it covers.
    Fill {
        tree: u32,
        space: u32,
        fields: Nums,
        n: u32,
    },
}

/// An item of program order, the order of the lines.
#[derive(Drop)]
pub struct Item {
    pub id: u32,
    pub line: u32,
    pub body: ItemBody,
}

/// A requirement of a task: what it may do with which fields of which points.
#[derive(Drop)]
pub struct Req {
    /// The position of its task among the items.
    pub item: usize,
    /// Its number among the requirements of its task, from 1.
    pub number: u32,
    pub line: u32,
    pub tree: u32,
    pub space: u32,
    pub fields: Nums,
    pub access: Priv,
    pub coherence: Coherence,
}

/// An instance: a copy of the data of some points and fields of a region tree.
#[derive(Drop)]
pub struct Inst {
    pub id: u32,
    pub tree: u32,
    pub space: u32,
    pub fields: Nums,
    pub kind: InstKind,
}

/// What a node of the recorded run does.
#[derive(Drop)]
pub enum Op {
    /// It runs the task at this position among the items.
    Run {
        item: usize,
    },
    /// It copies data from one instance into another.
    Copy {
        src: u32,
        dst: u32,
        space: u32,
        fields: Nums,
    },
    /// It puts the constant `n` into an instance.
    Put {
        inst: u32,
        space: u32,
        fields: Nums,
        n: u32,
    },
    /// It empties a reduction instance.
    Reset {
        inst: u32,
        space: u32,
        fields: Nums,
    },
    /// It folds what a reduction instance has gathered into another instance.
    Fold {
        src: u32,
        dst: u32,
        space: u32,
        fields: Nums,
    },
    /// It does nothing but wait.
    Merge,
}

/// A node of the recorded run: its completion event, and the events that it waits on.
#[derive(Drop)]
pub struct LogNode {
    pub line: u32,
    pub done: u32,
    pub waits: Nums,
    pub op: Op,
}
