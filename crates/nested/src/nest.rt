//! What is asked of a nested log.

ghost use Rattle.std.specs.Prelude.{◌≡◌, ◌≤◌, [], not, true, length, IfOk};
ghost use Rattle.std.specs.List.{list_any};
ghost use Rattle.std.specs.Option.{option_map_or};
ghost use Rattle.vocabulary.specs.Prelude.{Tables};
ghost use Rattle.semantics.specs.declared.limits.TheConstants.{MOST_GROUPS, MOST_RECORDS};
ghost use Rattle.semantics.specs.Nesting.{are_apart, are_free, free_pairs, is_ancestor};
ghost use Rattle.licences.specs.Claims.{conflict};
ghost use Rattle.nest_rules.specs.Pending.{AreFew};
ghost use Rattle.nested.specs.Nested.{IsLicensed, TasksAreApart};
ghost use Rattle.nested.specs.Rows.{AreNamed, rows_in};

use crate::apart::is_above;
use crate::counting::count_free;
use crate::finding::Found;
use crate::row::Row;
use crate::rows::row_at;
use licences::are_free;
use log_decl::Log;
use memory::Memory;
use nest_rules::Groups;
use point_set::PointSet;
use std::alloc::Global;
use std::marker::Model;

/// A nested log of which no fault is shown, and no child of which asks for more than its group licenses. Contracts see it as what its plain records declare, and what is nested.
#[derive(Drop)]
pub struct Nest<'a, P: PointSet + Copy> {
    log: Log<'a, P>,
    found: Found<'a, P>,
}

impl<'a, P: PointSet + Copy> Model for Nest<'a, P> {
    ghost use Rattle.std.specs.Prelude.{◌≡◌};
    ghost use Rattle.nest_rules.specs.Pending.{AreFew};
    ghost use Rattle.nested.specs.Nested.{IsLicensed, Nested};
    ghost use Rattle.nested.specs.Rows.{AreNamed, rows_in};

    ghost Value = { Nested };

    ghost view = { λ n. record { tables = n.log; nesting = n.found.groups } };

    ghost invariant = { λ n. IsLicensed n.log n.found.groups × AreNamed n.found.groups
        × (n.found.rows.items ≡ rows_in n.log n.found.groups) × AreFew n.found.groups };
}

/// Whether two rows are free of each other. A group without a row may do nothing.
fn rows_free<P: PointSet + Copy>(ours: Option<&Row<'_, P>>, theirs: Option<&Row<'_, P>>) -> bool
    ensures { result ≡ not (list_any (λ c. list_any (conflict c) (option_map_or (λ r. r.now) theirs.entry []))
        (option_map_or (λ r. r.now) ours.entry [])) }
{
    let Some(ours) = ours else {
        return true;
    };
    let Some(theirs) = theirs else {
        return true;
    };
    are_free(ours.as_slice(), theirs.as_slice())
}

/// Whether two groups are free of each other.
fn groups_free<P: PointSet + Copy>(rows: &[Row<'_, P>], groups: &Groups, g: u32, h: u32) -> bool
    ensures { (t : Tables) → rows.now ≡ rows_in t groups.now → AreNamed groups.now
        → result ≡ are_free t groups.now g h }
{
    let ours = row_at(rows, groups, g);
    let theirs = row_at(rows, groups, h);
    rows_free(ours, theirs)
}

impl<'a, P: PointSet + Copy> Nest<'a, P> {
    /// A log with its groups.
    pub(crate) fn of(log: Log<'a, P>, found: Found<'a, P>) -> Nest<'a, P>
        requires licensed { IsLicensed log found.groups }
        requires named { AreNamed found.groups }
        requires rows { found.rows.items ≡ rows_in log found.groups }
        requires few { AreFew found.groups }
        ensures { result ≡ record { tables = log.entry; nesting = found.entry.groups } }
    {
        Nest { log, found }
    }

    /// Lets the nested log go: who owns one then proves no drop of its parts.
    pub fn let_go(self) {
        drop(self.log);
        drop(self.found);
    }

    /// How many groups there are.
    pub fn group_count(&self) -> usize
        ensures count { result ≡ length self.now.nesting.groups }
        ensures few { result ≤ MOST_GROUPS }
    {
        self.found.groups.groups().len()
    }

    /// How many tasks are children of groups.
    pub fn task_count(&self) -> usize
        ensures count { result ≡ length self.now.nesting.members }
        ensures few { result ≤ MOST_RECORDS }
    {
        self.found.groups.members().len()
    }

    /// What every nested log keeps: it is what some records say of which no fault is shown, and no child asks for more than its group licenses.
    pub fn is_licensed(&self)
        ensures { IsLicensed self.now.tables self.now.nesting }
    {
        let _found = &self.found;
    }

    /// Whether two groups are free of each other: whether no privilege of the one interferes with one of the other. Then no task below the one interferes with a task below the other.
    pub fn free(&self, g: u32, h: u32) -> bool
        ensures exact { result ≡ are_free self.now.tables self.now.nesting g h }
        ensures tasks { result ≡ true → TasksAreApart self.now.tables self.now.nesting g h }
    {
        groups_free(self.found.rows.as_slice(), &self.found.groups, g, h)
    }

    /// How many pairs of groups are free of each other, of which neither is an ancestor of the other.
    pub fn free_pairs(&self, alloc: Global) -> Result<u64, Memory>
        ensures { IfOk result (λ count. count ≡ free_pairs self.now.tables self.now.nesting) }
    {
        count_free(alloc, &self.log, &self.found)
    }

    /// Whether the first group is an ancestor of the second.
    pub fn is_ancestor(&self, g: u32, h: u32) -> bool
        ensures { result ≡ is_ancestor self.now.nesting g h }
    {
        is_above(&self.found.groups, g, h)
    }

    /// Whether two groups are free of each other, and neither is an ancestor of the other.
    pub fn are_apart(&self, g: u32, h: u32) -> bool
        ensures { result ≡ are_apart self.now.tables self.now.nesting g h }
    {
        !self.is_ancestor(g, h) && !self.is_ancestor(h, g) && self.free(g, h)
    }
}
