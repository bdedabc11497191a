//! Spaces, and which lie below which.

ghost use Rattle.std.specs.Prelude.{◌≡◌, ◌==◌, ◌||◌, false, length, min};
ghost use Rattle.std.specs.Option.{option_map_or};
ghost use Rattle.vocabulary.specs.Prelude.{upward, space_above, spaces_above, is_in, is_in_tree};
ghost use Rattle.semantics.specs.Rules.{is_of_other_version, is_sub_again, is_late_sub, is_too_deep, is_no_root};

use log_tables::LogTables;
use point_set::PointSet;
use semantics::{DEEPEST, Tree};
use spy_grammar::Record;

/// Whether a record declares a space by rectangles in a log that is not of the second version.
pub fn is_of_other_version<P: PointSet>(tables: &LogTables<P>, rec: &Record) -> bool
    ensures { result ≡ is_of_other_version tables.now rec.now }
{
    match rec {
        Record::Plane { .. } => !tables.is_planar(),
        _ => false,
    }
}

/// Whether a record makes a subspace of a space that is one already.
pub fn is_sub_again<P: PointSet>(tables: &LogTables<P>, rec: &Record) -> bool
    ensures { result ≡ is_sub_again tables.now rec.now }
{
    match rec {
        Record::Sub { space, .. } => tables.is_sub(*space),
        _ => false,
    }
}

/// Whether a record makes a subspace of a space that is split already, or is the root of a tree.
pub fn is_late_sub<P: PointSet>(tables: &LogTables<P>, rec: &Record) -> bool
    ensures { result ≡ is_late_sub tables.now rec.now }
{
    match rec {
        Record::Sub { space, .. } => tables.is_split(*space) || tables.is_root(*space),
        _ => false,
    }
}

/// Whether a record makes a tree whose root space is a subspace.
pub fn is_no_root<P: PointSet>(tables: &LogTables<P>, rec: &Record) -> bool
    ensures { result ≡ is_no_root tables.now rec.now }
{
    match rec {
        Record::Tree { space, .. } => tables.is_sub(*space),
        _ => false,
    }
}

/// How many spaces lie above a space, counted up to a limit.
fn height<P: PointSet>(tables: &LogTables<P>, space: u32, limit: usize) -> usize
    ensures { result ≡ length (upward tables.now limit (space_above tables.now space)) }
{
    let mut at = space;
    for up in 0..limit {
        match tables.above(at) {
            Some(above) => at = above,
            None => return up,
        }
    }
    limit
}

/// Whether a record makes a subspace that lies too far below its topmost space.
pub fn is_too_deep<P: PointSet>(tables: &LogTables<P>, rec: &Record) -> bool
    ensures { result ≡ is_too_deep tables.now rec.now }
{
    match rec {
        Record::Sub { part, .. } => match tables.part(*part) {
            Some(part) => height(tables, part.space, tables.sub_count().min(DEEPEST)) == DEEPEST,
            None => false,
        },
        _ => false,
    }
}

/// Whether a root is among so many spaces above a space.
fn lies_below<P: PointSet>(tables: &LogTables<P>, space: u32, root: u32, limit: usize) -> bool
    ensures { result ≡ is_in (upward tables.now limit (space_above tables.now space)) root }
{
    let mut at = space;
    for _up in 0..limit {
        match tables.above(at) {
            Some(above) => at = above,
            None => return false,
        }
        if at == root {
            return true;
        }
    }
    false
}

/// Whether a space is the root space of a tree, if it is declared, or lies below it.
pub(crate) fn lies_in<P: PointSet>(tables: &LogTables<P>, tree: Option<Tree>, space: u32) -> bool
    ensures { result ≡ option_map_or (λ r. (space == r.space) || is_in (spaces_above tables.now space) r.space)
        tree false }
{
    match tree {
        Some(tree) => space == tree.space
            || lies_below(tables, space, tree.space, tables.sub_count()),
        None => false,
    }
}

/// Whether a space is the root space of a tree, or lies below it.
pub fn is_in_tree<P: PointSet>(tables: &LogTables<P>, tree: u32, space: u32) -> bool
    ensures { result ≡ is_in_tree tables.now tree space }
{
    lies_in(tables, tables.tree(tree), space)
}
