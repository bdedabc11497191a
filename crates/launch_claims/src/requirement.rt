//! Requirements of tasks, and launches.

use point_set::PointSet;
use privilege::Priv;

/// A requirement of a task: it uses points of fields of a tree.
#[derive(Clone, Copy)]
pub struct Requirement<'r, P: PointSet + Copy> {
    pub task: u32,
    pub tree: u32,
    /// The points.
    pub set: P,
    pub fields: &'r [u32],
    pub access: Priv,
    /// The number of the record that asks for it.
    pub record: u32,
    /// The number of the record that declares its points.
    pub declared: u32,
}

/// The tasks of a launch. Their ids count up from `base`, and `end` comes after the last.
#[derive(Clone, Copy)]
pub struct LaunchTasks {
    pub base: u32,
    pub end: u64,
    /// The number of the record that launches them.
    pub number: u32,
}
