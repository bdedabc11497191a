//! Which node is before which.

ghost use Rattle.std.specs.Prelude.{◌≡◌, ℕ, ◌<◌, length, IfOk, All, not, position, map, true};
ghost use Rattle.std.specs.List.{list_any};
ghost use Rattle.event_graph.specs.Orders.{IsOrderOf};

use crate::building::rows_of;
use crate::mixed::mixed_in;
use crate::rows::Rows;
use crate::search::first_outside;
use crate::unions::in_rows;
use crate::waits::places_at;
use event_graph::{Graph, Order};
use memory::Memory;
use std::alloc::Global;
use std::marker::Model;

/// For each node its place in the replay order, and for each place the places of the nodes before its node.
#[derive(Drop)]
pub struct Reach {
    places: Vec<usize>,
    rows: Rows,
}

impl Model for Reach {
    ghost use Rattle.reach_marks.specs.Reached.{Marks, AreSound, marks_of};

    ghost Value = { Marks };

    ghost view = { λ r. marks_of r.places.items r.rows };

    ghost invariant = { λ r. AreSound r.places.items r.rows };
}

impl Reach {
    ghost use Rattle.reach_marks.specs.Reached.{before_in, AreMarksOf};
    ghost use Rattle.reach_marks.specs.Counts.{mixed_pairs};

    /// The marks of a graph, of which this is the order.
    pub fn build(alloc: Global, graph: &Graph, order: &Order) -> Result<Reach, Memory>
        requires { IsOrderOf graph.now order.now }
        ensures { IfOk result (AreMarksOf graph.now) }
    {
        let _linked = graph.len();
        let places = Vec::from_slice(alloc, order.places())?;
        let rows = rows_of(alloc, graph, order.as_slice(), places.as_slice())?;
        Ok(Reach { places, rows })
    }

    /// How many nodes there are.
    pub fn len(&self) -> usize
        ensures { result ≡ length self.now.places }
    {
        self.places.len()
    }

    /// Whether node `a` is before node `b`.
    pub fn before(&self, a: usize, b: usize) -> bool
        requires a { a < length self.now.places }
        requires b { b < length self.now.places }
        ensures { result ≡ before_in self.now a b }
    {
        let a = self.places[a];
        let b = self.places[b];
        self.rows.has(b, a)
    }

    /// The least index in `group` whose node is not before node `b`.
    pub fn first_not_before(&self, group: &[usize], b: usize) -> Option<usize>
        requires group { All (λ a. a < length self.now.places) group.now }
        requires b { b < length self.now.places }
        ensures { result ≡ position (λ a. not (before_in self.now a b)) group.now }
    {
        first_outside(&self.rows, self.places[b], self.places.as_slice(), group)
    }

    /// For each node of a group whether it is before some node of the group.
    pub fn before_some(&self, alloc: Global, group: &[usize]) -> Result<Vec<bool>, Memory>
        requires group { All (λ a. a < length self.now.places) group.now }
        requires passed { (a b c : ℕ) → before_in self.now a b ≡ true → before_in self.now b c ≡ true
            → before_in self.now a c ≡ true }
        ensures { IfOk result (λ v.
            v.items ≡ map (λ a. list_any (before_in self.now a) group.now) group.now) }
    {
        let places = places_at(alloc, self.places.as_slice(), group)?;
        let marks = in_rows(alloc, &self.rows, places.as_slice())?;
        Ok(marks)
    }

    /// How many pairs of a node and a block there are of which some node of the block is before the node and some is not.
    pub fn mixed(&self) -> u64
        ensures { result ≡ mixed_pairs self.now }
    {
        mixed_in(self.places.as_slice(), &self.rows)
    }
}
