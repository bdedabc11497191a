//! Which nodes have to come after which groups, cell by cell, where short chains do not tell.

ghost use Rattle.std.specs.Prelude.{◌≡◌, [], ◌∷◌, ◌++◌, All, OnOk};
ghost use Rattle.vocabulary.specs.Prelude.{Before};
ghost use Rattle.cell_races.specs.Accesses.{conflicts};
ghost use Rattle.cell_races.specs.Groups.{asked, no_groups, with_node_access};
ghost use Rattle.cell_races.specs.Questions.{AreAnswered, asked_in};

use crate::access::{Access, NodeAccess};
use crate::chains::all_lead_to;
use event_graph::Graph;
use std::alloc::{AllocError, Global};
use std::marker::Model;

/// Whether a node comes after a group: the members from one place of the list of all members up to another.
#[derive(Clone, Copy)]
pub struct Question {
    pub node: usize,
    pub from: usize,
    pub end: usize,
}

/// Questions, and the members of the groups that they ask about.
#[derive(Drop)]
pub struct Questions {
    pub members: Vec<usize>,
    pub asked: Vec<Question>,
}

/// The questions so far, which ask of the first `kept` members alone, and the last two groups of a cell. These stand at the end of the list of members: the one from `earlier` up to `group`, and the other from there on.
#[derive(Drop)]
pub(crate) struct Asking {
    members: Vec<usize>,
    asked: Vec<Question>,
    kept: usize,
    earlier: usize,
    group: usize,
    access: Access,
}

impl Model for Asking {
    ghost use Rattle.std.specs.Prelude.{◌≤◌, All, drop, length, map};
    ghost use Rattle.cell_races.specs.Questions.{Asking, IsPart, asked_by, part};

    ghost Value = { Asking };

    ghost view = { λ a. record {
      groups = record { earlier = part a.members.items a.earlier a.group; group = drop a.group a.members.items; access = a.access };
      asked = map (asked_by a.members.items) a.asked.items;
    } };

    ghost invariant = { λ a. (a.earlier ≤ a.group) × (a.group ≤ length a.members.items)
        × (a.kept ≤ length a.members.items) × All (IsPart a.kept) a.asked.items };
}

impl Asking {
    /// Nothing is asked.
    pub(crate) fn new(alloc: Global) -> Asking
        ensures { result ≡ record { groups = no_groups; asked = [] } }
    {
        Asking {
            members: Vec::new(alloc),
            asked: Vec::new(alloc),
            kept: 0,
            earlier: 0,
            group: 0,
            access: Access::Reads,
        }
    }

    /// No node of a cell yet. Members of the cell before that no question asks of are let go.
    pub(crate) fn begin_cell(&mut self)
        ensures groups { self.new.groups ≡ no_groups }
        ensures asked { self.new.asked ≡ self.old.asked }
    {
        self.members.truncate(self.kept);
        self.earlier = self.kept;
        self.group = self.kept;
        self.access = Access::Reads;
    }

    /// Asks whether the next node comes after the group that it has to come after, unless short chains show it.
    pub(crate) fn ask(
        &mut self,
        graph: &Graph,
        node_access: NodeAccess,
        steps: &mut usize,
    ) -> Result<(), AllocError>
        ensures groups { OnOk result (self.new.groups ≡ self.old.groups) }
        ensures asked { OnOk result (AreAnswered graph.now self.new.asked → AreAnswered graph.now self.old.asked
            × All (λ a. Before graph.now a node_access.node) (asked self.old.groups node_access)) }
    {
        let members = self.members.as_slice();
        let (from, end) = if self.access.conflicts(node_access.access) {
            (self.group, members.len())
        } else {
            (self.earlier, self.group)
        };
        if all_lead_to(graph, &members[from..end], node_access.node, steps) {
            return Ok(());
        }
        self.asked.push(Question {
            node: node_access.node,
            from,
            end,
        })?;
        self.kept = members.len();
        Ok(())
    }

    // Begins a group, of which there is no node yet.
    fn begin_group(&mut self, access: Access)
        ensures groups { self.new.groups ≡ record { earlier = self.old.groups.group; group = []; access = access } }
        ensures asked { self.new.asked ≡ self.old.asked }
    {
        self.earlier = self.group;
        self.group = self.members.len();
        self.access = access;
    }

    // Adds a node to the last group.
    fn push_member(&mut self, node: usize) -> Result<(), AllocError>
        ensures groups { OnOk result (self.new.groups ≡ record self.old.groups { group = self.old.groups.group ++ node ∷ [] }) }
        ensures asked { OnOk result (self.new.asked ≡ self.old.asked) }
    {
        self.members.push(node)?;
        Ok(())
    }

    // Whether the next node conflicts with the last group.
    fn conflicts(&self, access: Access) -> bool
        ensures { result ≡ conflicts self.now.groups.access access }
    {
        self.access.conflicts(access)
    }

    /// Takes the next node.
    pub(crate) fn take(&mut self, node_access: NodeAccess) -> Result<(), AllocError>
        ensures groups { OnOk result (self.new.groups ≡ with_node_access self.old.groups node_access) }
        ensures asked { OnOk result (self.new.asked ≡ self.old.asked) }
    {
        if self.conflicts(node_access.access) {
            self.begin_group(node_access.access);
        }
        self.push_member(node_access.node)
    }

    /// The questions.
    pub(crate) fn finish(self) -> Questions
        ensures { asked_in result ≡ self.asked }
    {
        Questions {
            members: self.members,
            asked: self.asked,
        }
    }
}
