//! What is looked up in a log beside its tables: found once, and kept.

ghost use Rattle.std.specs.Prelude.{◌≡◌, ◌<◌, nat_eq, length, map, IfOk, IfSome, IsSome};
ghost use Rattle.item_uses.specs.Usages.{usages};
ghost use Rattle.std.specs.HashMap.{get};
ghost use Rattle.logs.specs.Looked.{AreFound};

use crate::log_uses::{LogUses, uses_where_listed};
use crate::serial_order::{serial_lines, serial_order, serial_places};
use bumpalo::Bump;
use log_tables::{LogTables, Space};
use point_set::PointSet;
use region_tree::Memory;
use std::alloc::{AllocError, Global};
use std::collections::HashMap;

/// What is found of a log.
#[derive(Drop)]
pub(crate) struct Found<'a, P: PointSet + Copy> {
    /// The ids of the spaces, in the order of their lines.
    pub(crate) space_ids: Vec<u32>,
    /// The positions of the items in serial order.
    pub(crate) order: Vec<usize>,
    /// For each item its place in that order.
    pub(crate) places: Vec<usize>,
    /// For the id of each item that is listed, the line that lists it.
    pub(crate) lines: HashMap<u32, u32>,
    /// What the items ask for, where a line lists some.
    pub(crate) uses: Option<LogUses<'a, P>>,
}

/// The ids of spaces.
fn ids_of<P>(alloc: Global, spaces: &[Space<P>]) -> Result<Vec<u32>, AllocError>
    ensures { IfOk result (λ ids. ids.items ≡ map (λ s. s.id) spaces.now) }
{
    spaces.iter().map(|s| s.id).collect(alloc)
}

/// What is found of these tables.
pub(crate) fn found_in<'a, P: PointSet + Copy>(
    alloc: Global,
    bump: &'a Bump,
    tables: &LogTables<P>,
) -> Result<Found<'a, P>, Memory>
    ensures uses { IfOk result (λ f. IfSome f.uses (λ u. u ≡ usages tables.now)) }
    ensures some { IfOk result (λ f. 0 < length tables.now.serials → IsSome f.uses) }
    ensures found { IfOk result (λ f. AreFound tables.now f.space_ids.items f.order.items f.places.items (get nat_eq f.lines)) }
{
    let space_ids = ids_of(alloc, tables.spaces())?;
    let order = serial_order(alloc, tables)?;
    let places = serial_places(alloc, tables.items().len(), order.as_slice())?;
    let lines = serial_lines(alloc, tables.serials())?;
    let uses = uses_where_listed(alloc, bump, tables)?;
    Ok(Found {
        space_ids,
        order,
        places,
        lines,
        uses,
    })
}
