//! Groups as sides of pairs, of which it is counted how many are free of each other.

ghost use Rattle.std.specs.Prelude.{◌≡◌, ◌≤◌, length, IfOk};
ghost use Rattle.semantics.specs.declared.limits.TheConstants.{MOST_GROUPS};
ghost use Rattle.semantics.specs.Nesting.{free_pairs};
ghost use Rattle.nested.specs.Rows.{rows_in};
ghost use Rattle.nested.specs.Sides.{side_at, sides_in};

use crate::apart::ancestors_of;
use crate::finding::Found;
use crate::row::Row;
use group_pairs::{Side, count_apart};
use log_tables::LogTables;
use logs::Log;
use memory::Memory;
use nest_rules::Groups;
use point_set::PointSet;
use semantics::Group;
use std::alloc::{AllocError, Global};

/// A group with its ancestors and its privileges.
fn side_of<'r, 'a, P: PointSet + Copy>(
    alloc: Global,
    groups: &Groups,
    group: &Group,
    row: &'r Row<'a, P>,
) -> Result<Side<'r, 'a, P>, AllocError>
    ensures { IfOk result (λ side. side ≡ side_at groups.now group.now.id row.now) }
{
    let above = ancestors_of(alloc, groups, group.id)?;
    Ok(Side::new(group.id, above, row.as_slice()))
}

/// Each group with its ancestors and its privileges.
pub(crate) fn sides_of<'r, 'a, P: PointSet + Copy>(
    alloc: Global,
    tables: &LogTables<P>,
    groups: &Groups,
    rows: &'r [Row<'a, P>],
) -> Result<Vec<Side<'r, 'a, P>>, AllocError>
    requires { rows.now ≡ rows_in tables.now groups.now }
    ensures { IfOk result (λ sides. sides.items ≡ sides_in tables.now groups.now) }
{
    let mut sides = Vec::new(alloc);
    let mut place = 0;
    for group in groups.groups() {
        sides.push(side_of(alloc, groups, group, &rows[place])?)?;
        place += 1;
    }
    Ok(sides)
}

/// How many pairs of groups are free of each other, of which neither is an ancestor of the other.
pub(crate) fn count_free<'a, P: PointSet + Copy>(
    alloc: Global,
    log: &Log<'a, P>,
    found: &Found<'a, P>,
) -> Result<u64, Memory>
    requires rows { found.now.rows.items ≡ rows_in log.now found.now.groups }
    requires few { length found.now.groups.groups ≤ MOST_GROUPS }
    ensures { IfOk result (λ count. count ≡ free_pairs log.now found.now.groups) }
{
    let sides = sides_of(alloc, log.tables(), &found.groups, &found.rows)?;
    let forest = log.forest();
    count_apart(alloc, &forest, &sides)
}
