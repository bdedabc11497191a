//! The rules on groups, in their order.

ghost use Rattle.std.specs.Prelude.{◌≡◌, ◌==◌, [], ◌∷◌, if◌then◌else◌};
ghost use Rattle.std.specs.List.{list_all};
ghost use Rattle.semantics.specs.Nesting.{has_other_fields, is_group, is_late_group, is_late_nested, is_outside_tree, is_plain, named_groups, repeats_group};
ghost use Rattle.nest_rules.specs.Pending.{broken};

use crate::groups::Groups;
use crate::pending::Pending;
use log_rules::{exceeds_tree, is_in_tree};
use log_tables::LogTables;
use point_set::PointSet;
use semantics::MOST_GROUPS;
use spy_grammar::{Code, NRecord};

fn is_plain(rec: &NRecord) -> bool
    ensures { result ≡ is_plain rec.now }
{
    match rec {
        NRecord::Plain(_) => true,
        _ => false,
    }
}

/// Whether there are too many records that are not plain.
fn is_late_nested(groups: &Groups, rec: &NRecord) -> bool
    ensures { result ≡ is_late_nested groups.now rec.now }
{
    !is_plain(rec) && groups.is_full()
}

/// Whether a record makes a group, or a member, that is there already.
fn repeats_group(groups: &Groups, rec: &NRecord) -> bool
    ensures { result ≡ repeats_group groups.now rec.now }
{
    match rec {
        NRecord::Group { id, .. } => groups.has_group(*id),
        NRecord::Member { task, .. } => groups.has_member(*task),
        _ => false,
    }
}

/// Whether there is this group, or none is named.
fn is_parent(groups: &Groups, parent: u32) -> bool
    ensures { result ≡ list_all (is_group groups.now) (if parent == 0 then [] else parent ∷ []) }
{
    parent == 0 || groups.has_group(parent)
}

/// Whether there is each group that a record names.
fn has_groups(groups: &Groups, rec: &NRecord) -> bool
    ensures { result ≡ list_all (is_group groups.now) (named_groups rec.now) }
{
    match rec {
        NRecord::Group { parent, .. } => is_parent(groups, *parent),
        NRecord::Greq { group, .. } | NRecord::Member { group, .. } => groups.has_group(*group),
        NRecord::Plain(_) => true,
    }
}

/// Whether a record makes a group too many.
fn is_late_group(groups: &Groups, rec: &NRecord) -> bool
    ensures { result ≡ is_late_group groups.now rec.now }
{
    match rec {
        NRecord::Group { .. } => groups.groups().len() >= MOST_GROUPS,
        _ => false,
    }
}

/// Whether the space of a privilege lies outside its tree.
fn is_outside_tree<P: PointSet>(tables: &LogTables<P>, rec: &NRecord) -> bool
    ensures { result ≡ is_outside_tree tables.now rec.now }
{
    match rec {
        NRecord::Greq { tree, space, .. } => !is_in_tree(tables, *tree, *space),
        _ => false,
    }
}

/// Whether a privilege has a field that its tree does not have.
fn has_other_fields<P: PointSet>(tables: &LogTables<P>, rec: &NRecord) -> bool
    ensures { result ≡ has_other_fields tables.now rec.now }
{
    match rec {
        NRecord::Greq { tree, fields, .. } => exceeds_tree(tables, *tree, fields),
        _ => false,
    }
}

/// The first rule that a record breaks, given what is nested by then and what the whole log declares.
pub(crate) fn broken<P: PointSet>(
    tables: &LogTables<P>,
    groups: &Groups,
    p: &Pending,
) -> Option<Code>
    ensures { result ≡ broken tables.now groups.now p.now }
{
    if is_late_nested(groups, &p.rec) {
        return Some(Code::TooManyRecords);
    }
    if repeats_group(groups, &p.rec) {
        return Some(Code::RepeatedId);
    }
    if !(has_groups(groups, &p.rec) && p.known) {
        return Some(Code::UnknownId);
    }
    if is_late_group(groups, &p.rec) {
        return Some(Code::TooManyGroups);
    }
    if is_outside_tree(tables, &p.rec) {
        return Some(Code::NotInTree);
    }
    if has_other_fields(tables, &p.rec) {
        return Some(Code::Fields);
    }
    None
}
