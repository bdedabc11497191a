//! Whether things are declared.

ghost use Rattle.std.specs.Prelude.{◌≡◌, ◌==◌, ◌&&◌, [], MatchOption};
ghost use Rattle.std.specs.List.{list_any};
ghost use Rattle.std.specs.List.Sorted.{IsStrictlyIncreasing};
ghost use Rattle.vocabulary.specs.Prelude.{fields_in, points_in, space_above};
ghost use Rattle.semantics.specs.Rules.{is_declared, runs_item, space_id, part_id, field_space_id, tree_id, operator_id, item_id, task_id, inst_id};

use crate::entries::Step;
use crate::tables::LogTables;
use point_set::PointSet;
use semantics::ItemBody;

#[tactic(auto, using(list_lemmas::proofs::lemmas::Places::list_any_map))]
impl<P: PointSet> LogTables<P> {
    /// Whether a space is declared.
    pub fn has_space(&self, id: u32) -> bool
        ensures { result ≡ is_declared self.now (space_id id) }
    {
        self.regions.spaces().has(id)
    }

    /// Whether a partition is declared.
    pub fn has_part(&self, id: u32) -> bool
        ensures { result ≡ is_declared self.now (part_id id) }
    {
        self.regions.parts().rows().has(id)
    }

    /// Whether a field space is declared.
    pub fn has_field_space(&self, id: u32) -> bool
        ensures { result ≡ is_declared self.now (field_space_id id) }
    {
        self.field_spaces.has(id)
    }

    /// Whether a tree is declared.
    pub fn has_tree(&self, id: u32) -> bool
        ensures { result ≡ is_declared self.now (tree_id id) }
    {
        self.trees.rows().has(id)
    }

    /// Whether an operator is declared.
    pub fn has_operator(&self, id: u32) -> bool
        ensures { result ≡ is_declared self.now (operator_id id) }
    {
        self.operators.has(id)
    }

    /// Whether an item is declared.
    pub fn has_item(&self, id: u32) -> bool
        ensures { result ≡ is_declared self.now (item_id id) }
    {
        self.items.rows().has(id)
    }

    /// Whether a task is declared.
    pub fn has_task(&self, id: u32) -> bool
        ensures { result ≡ is_declared self.now (task_id id) }
    {
        self.items.also_has(Some(id))
    }

    /// Whether an instance is declared.
    pub fn has_inst(&self, id: u32) -> bool
        ensures { result ≡ is_declared self.now (inst_id id) }
    {
        self.insts.has(id)
    }

    /// Whether a partition has a subspace of this colour.
    pub fn has_colour(&self, part: u32, colour: u32) -> bool
        ensures { result ≡ list_any (λ s. (s.part == part) && (s.colour == colour)) self.now.subs }
    {
        self.regions.subs().rows().has(Step { part, colour })
    }

    /// Whether a partition splits the space.
    pub fn is_split(&self, space: u32) -> bool
        ensures { result ≡ list_any (λ p. p.space == space) self.now.parts }
    {
        self.regions.parts().also_has(space)
    }

    /// Whether the space is the root space of a tree.
    pub fn is_root(&self, space: u32) -> bool
        ensures { result ≡ list_any (λ r. r.space == space) self.now.trees }
    {
        self.trees.also_has(space)
    }

    /// Whether a node completes the event.
    pub fn is_done(&self, event: u32) -> bool
        ensures { result ≡ list_any (λ n. n.done == event) self.now.nodes }
    {
        self.nodes.rows().has(event)
    }

    /// Whether a node runs the item.
    pub fn is_run(&self, item: usize) -> bool
        ensures { result ≡ list_any (λ n. runs_item item n.op) self.now.nodes }
    {
        self.nodes.also_has(Some(item))
    }
}

#[tactic(auto, using(list_lemmas::proofs::lemmas::Places::find_map))]
impl<P: PointSet> LogTables<P> {
    /// The set of a space.
    pub fn set(&self, id: u32) -> Option<&P>
        ensures { MatchOption result (points_in self.now id ≡ []) (λ s. points_in self.now id
            ≡ P.points s.now) }
    {
        self.regions.set(id)
    }

    /// The fields of a field space: none where it is not declared.
    pub fn fields(&self, id: u32) -> &[u32]
        ensures fields { result.now ≡ fields_in self.now id }
        ensures ascends { IsStrictlyIncreasing result.now }
    {
        match self.field_space(id) {
            Some(fspace) => fspace.fields.as_slice(),
            None => &[],
        }
    }

    /// The space above a space.
    pub fn above(&self, space: u32) -> Option<u32>
        ensures { result ≡ space_above self.now space }
    {
        self.regions.parent(space)
    }
}
