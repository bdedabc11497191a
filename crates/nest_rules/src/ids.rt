//! Which spaces, trees and tasks are declared so far.

ghost use Rattle.std.specs.Prelude.{◌≡◌, [], OnOk};
ghost use Rattle.nest_rules.specs.Pending.{knows_by, with_ids};

use log_tables::{ById, Rows};
use spy_grammar::{NRecord, Record};
use std::alloc::{AllocError, Global};

/// The ids of the spaces, trees and tasks that are declared so far.
#[derive(Drop)]
pub(crate) struct Ids {
    pub(crate) spaces: Rows<ById, u32>,
    pub(crate) trees: Rows<ById, u32>,
    pub(crate) tasks: Rows<ById, u32>,
}

impl Ids {
    /// None is declared.
    pub(crate) fn new(alloc: Global) -> Ids
        ensures { result ≡ record { spaces = []; trees = []; tasks = [] } }
    {
        Ids {
            spaces: Rows::new(alloc),
            trees: Rows::new(alloc),
            tasks: Rows::new(alloc),
        }
    }
}

/// Notes what a record declares.
pub(crate) fn note(ids: &mut Ids, rec: &Record) -> Result<(), AllocError>
    ensures { OnOk result (ids.new ≡ with_ids ids.old rec.now) }
{
    match rec {
        Record::Ispace { id, .. } | Record::Plane { id, .. } => ids.spaces.push(*id),
        Record::Tree { id, .. } => ids.trees.push(*id),
        Record::Task { id } => ids.tasks.push(*id),
        _ => Ok(()),
    }
}

/// Whether each tree, space and task that a record names is declared.
pub(crate) fn knows(ids: &Ids, rec: &NRecord) -> bool
    ensures { result ≡ knows_by ids.now rec.now }
{
    match rec {
        NRecord::Greq { tree, space, .. } => ids.trees.has(*tree) && ids.spaces.has(*space),
        NRecord::Member { task, .. } => ids.tasks.has(*task),
        _ => true,
    }
}
