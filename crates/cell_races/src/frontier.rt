//! How far the nodes that access a cell have been looked at.

ghost use Rattle.std.specs.Prelude.{◌≡◌, ◌<◌, All, OnOk, length};
ghost use Rattle.reach_marks.specs.Reached.{before_in};
ghost use Rattle.cell_races.specs.Groups.{no_groups, with_node_access, asked, fails_at};

use crate::access::{Access, NodeAccess};
use reach_marks::Reach;
use std::alloc::{AllocError, Global};
use std::marker::Model;
use std::mem;

/// The last two groups of a cell's nodes.
#[derive(Drop)]
pub(crate) struct Frontier {
    earlier: Vec<usize>,
    group: Vec<usize>,
    access: Access,
}

impl Model for Frontier {
    ghost use Rattle.cell_races.specs.Groups.{Groups};

    ghost Value = { Groups };

    ghost view = { λ f. record { earlier = f.earlier.items; group = f.group.items; access = f.access } };
}

impl Frontier {
    /// No node yet.
    pub(crate) fn new(alloc: Global) -> Frontier
        ensures { result ≡ no_groups }
    {
        Frontier {
            earlier: Vec::new(alloc),
            group: Vec::new(alloc),
            access: Access::Reads,
        }
    }

    /// No node again.
    pub(crate) fn clear(&mut self)
        ensures { self.new ≡ no_groups }
    {
        self.earlier.clear();
        self.group.clear();
        self.access = Access::Reads;
    }

    // The group that a node has to come after.
    fn asked(&self, node_access: NodeAccess) -> &[usize]
        ensures { result.now ≡ asked self.now node_access }
    {
        if self.access.conflicts(node_access.access) {
            self.group.as_slice()
        } else {
            self.earlier.as_slice()
        }
    }

    /// Whether the next node does not come after the whole group that it has to come after.
    #[tactic(auto, using(crate::proofs::Members::position_any))]
    pub(crate) fn fails(&self, reach: &Reach, node_access: NodeAccess) -> bool
        requires group { All (λ a. a < length reach.now.places) (asked self.now node_access) }
        requires node { node_access.node < length reach.now.places }
        ensures { result ≡ fails_at (before_in reach.now) self.now node_access }
    {
        reach
            .first_not_before(self.asked(node_access), node_access.node)
            .is_some()
    }

    /// Takes the next node.
    pub(crate) fn take(&mut self, node_access: NodeAccess) -> Result<(), AllocError>
        ensures { OnOk result (self.new ≡ with_node_access self.old node_access) }
    {
        if self.access.conflicts(node_access.access) {
            mem::swap(&mut self.earlier, &mut self.group);
            self.group.clear();
            self.access = node_access.access;
        }
        self.group.push(node_access.node)?;
        Ok(())
    }
}
