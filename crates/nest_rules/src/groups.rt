//! The groups, their privileges and their members, as they grow.

ghost use Rattle.std.specs.Prelude.{◌≡◌, ◌++◌, ◌∷◌, [], ◌==◌, ◌+◌, ◌<◌, ◌≤◌, ◌^◌, ◌-◌, All, length, nat_lt, OnOk};
ghost use Rattle.std.specs.List.{list_any, position_from};
ghost use Rattle.std.specs.List.Sorted.{IsStrictlyIncreasing};
ghost use Rattle.spy_grammar.specs.Nested.{GoodNested};
ghost use Rattle.spy_grammar.specs.declared.nested.NRecord.TheVariants as nested;
ghost use Rattle.semantics.specs.Nesting.{is_group, no_nesting, privileges_before, with_nested};

use indexmap::IndexMap;
use log_tables::{ById, Rows, priv_of};
use semantics::{Group, GroupMember, GroupReq, MOST_RECORDS};
use spy_grammar::NRecord;
use std::alloc::{AllocError, Global};
use std::marker::Model;

/// What is nested so far. Whether there is a group, or a member, is looked up in constant time.
#[derive(Drop)]
pub struct Groups {
    groups: Vec<Group>,
    privileges: Vec<GroupReq>,
    members: Vec<GroupMember>,
    /// The ids of the groups, and how many privileges each has.
    ids: Rows<ById, u32>,
    counts: IndexMap<u32, usize>,
    /// The tasks of the members.
    tasks: Rows<ById, u32>,
}

impl Model for Groups {
    ghost use Rattle.std.specs.Prelude.{◌≡◌, ℕ, map, All, nat_eq, unwrap_or};
    ghost use Rattle.std.specs.List.Sorted.{IsStrictlyIncreasing};
    ghost use Rattle.indexmap.specs.IndexMap.{get};
    ghost use Rattle.semantics.specs.Nesting.{Nesting, privileges_before};

    ghost Value = { Nesting };

    ghost view = { λ g. record {
      groups = g.groups.items;
      privileges = g.privileges.items;
      members = g.members.items;
    } };

    ghost invariant = { λ g. (g.ids ≡ map (λ x. x.id) g.groups.items)
        × (g.tasks ≡ map (λ x. x.task) g.members.items)
        × ((q : ℕ) → unwrap_or (get nat_eq g.counts q) 0 ≡ privileges_before g.privileges.items q)
        × All (λ q. IsStrictlyIncreasing q.fields) g.privileges.items };
}

impl Groups {
    /// Nothing is nested.
    pub fn new(alloc: Global) -> Groups
        ensures { result ≡ no_nesting }
    {
        Groups {
            groups: Vec::new(alloc),
            privileges: Vec::new(alloc),
            members: Vec::new(alloc),
            ids: Rows::new(alloc),
            counts: IndexMap::new(alloc),
            tasks: Rows::new(alloc),
        }
    }

    /// The groups, in the order of their lines.
    pub fn groups(&self) -> &[Group]
        ensures { result.now ≡ self.now.groups }
    {
        &self.groups
    }

    /// The privileges, in the order of their lines.
    pub fn privileges(&self) -> &[GroupReq]
        ensures privileges { result.now ≡ self.now.privileges }
        ensures ascend { All (λ q. IsStrictlyIncreasing q.fields) result.now }
    {
        &self.privileges
    }

    /// The members, in the order of their lines.
    pub fn members(&self) -> &[GroupMember]
        ensures { result.now ≡ self.now.members }
    {
        &self.members
    }

    /// The place of the first group with this id.
    #[tactic(auto, using(crate::proofs::Adding::place_of_id))]
    pub fn place(&self, id: u32) -> Option<usize>
        ensures { result ≡ position_from (λ g. g.id == id) 0 self.now.groups }
    {
        self.ids.place(id)
    }

    /// Whether a group has this id.
    #[tactic(auto, using(list_lemmas::proofs::lemmas::Places::list_any_map))]
    pub(crate) fn has_group(&self, id: u32) -> bool
        ensures { result ≡ is_group self.now id }
    {
        self.ids.has(id)
    }

    /// Whether a task is a member.
    #[tactic(auto, using(list_lemmas::proofs::lemmas::Places::list_any_map))]
    pub(crate) fn has_member(&self, task: u32) -> bool
        ensures { result ≡ list_any (λ m. m.task == task) self.now.members }
    {
        self.tasks.has(task)
    }

    /// Whether one more would be too many.
    pub(crate) fn is_full(&self) -> bool
        ensures { result ≡ nat_lt MOST_RECORDS
            (length self.now.groups + length self.now.privileges + length self.now.members + 1) }
    {
        let others = self.groups.len().saturating_add(self.privileges.len());
        others.saturating_add(self.members.len()) >= MOST_RECORDS
    }

    /// How many privileges a group has.
    fn count(&self, group: u32) -> usize
        ensures count { result ≡ privileges_before self.now.privileges group }
        ensures few { result ≤ length self.now.privileges }
    {
        self.counts.get(&group).copied().unwrap_or(0)
    }

    fn add_group(&mut self, id: u32, parent: u32) -> Result<(), AllocError>
        ensures { OnOk result (self.new ≡ with_nested self.old (nested.Group id parent)) }
    {
        self.groups.reserve(1)?;
        self.ids.push(id)?;
        self.groups.push(Group { id, parent })?;
        Ok(())
    }

    fn add_member(&mut self, task: u32, group: u32) -> Result<(), AllocError>
        ensures { OnOk result (self.new ≡ with_nested self.old (nested.Member task group)) }
    {
        self.members.reserve(1)?;
        self.tasks.push(task)?;
        self.members.push(GroupMember { task, group })?;
        Ok(())
    }

    fn push_privilege(&mut self, privilege: GroupReq, count: usize) -> Result<(), AllocError>
        requires ascend { IsStrictlyIncreasing privilege.fields }
        requires count { count ≡ privileges_before self.old.privileges privilege.group + 1 }
        ensures { OnOk result (self.new
            ≡ record self.old { privileges = self.old.privileges ++ privilege ∷ [] }) }
    {
        self.privileges.reserve(1)?;
        self.counts.insert(privilege.group, count)?;
        self.privileges.push(privilege)?;
        Ok(())
    }

    /// One record more.
    pub(crate) fn add(&mut self, rec: NRecord) -> Result<(), AllocError>
        requires good { GoodNested rec }
        requires few { length self.old.privileges < 2 ^ 32 - 1 }
        ensures { OnOk result (self.new ≡ with_nested self.old rec) }
    {
        match rec {
            NRecord::Plain(_) => Ok(()),
            NRecord::Group { id, parent } => self.add_group(id, parent),
            NRecord::Greq {
                group,
                tree,
                space,
                fields,
                access,
            } => {
                let count = self.count(group) + 1;
                let privilege = GroupReq {
                    group,
                    number: count as u32,
                    tree,
                    space,
                    fields,
                    access: priv_of(access),
                };
                self.push_privilege(privilege, count)
            }
            NRecord::Member { task, group } => self.add_member(task, group),
        }
    }
}
