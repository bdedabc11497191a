//! Groups of a nested log, entry by entry, and what is shown where a child may do more than its group.

use crate::places::Place;
use privilege::Priv;
use spy_grammar::Nums;

/// A group, a task that runs nothing itself and has privileges: its id, and the group that it is a child of, or 0 for none.
#[derive(Clone, Copy, PartialEq, Eq)]
pub struct Group {
    pub id: u32,
    pub parent: u32,
}

/// A privilege of a group: what may be done on its behalf with which fields of which points.
#[derive(Drop)]
pub struct GroupReq {
    pub group: u32,
    /// Its number among the privileges of its group, from 1.
    pub number: u32,
    pub tree: u32,
    pub space: u32,
    pub fields: Nums,
    pub access: Priv,
}

/// A task, and the group that it is a child of.
#[derive(Clone, Copy, PartialEq, Eq)]
pub struct GroupMember {
    pub task: u32,
    pub group: u32,
}

/// A child of a group.
#[derive(Clone, Copy, PartialEq, Eq)]
pub struct Child {
    /// Whether it is a task; else it is a group.
    pub leaf: bool,
    pub id: u32,
    /// The group that it is a child of.
    pub group: u32,
}

/// A requirement of a child, by its number, and a place of it at which the group of the child does not allow what is asked for.
#[derive(Clone, Copy, PartialEq, Eq)]
pub struct Unlicensed {
    pub child: Child,
    pub req: u32,
    pub place: Place,
}
