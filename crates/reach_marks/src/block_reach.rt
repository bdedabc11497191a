//! What stands before what by the places of one block, without the marks of the others.

ghost use Rattle.std.specs.Prelude.{◌≡◌, ℕ, ◌+◌, ◌*◌, ◌<◌, ◌∷◌, [], All, IfOk, IfSome, OnOk, length, slice_index, true};
ghost use Rattle.std.specs.List.{list_any};
ghost use Rattle.bit_words.specs.Bits.{has_bit};
ghost use Rattle.reach_marks.specs.Blocks.{block_has, block_in, is_full_block, reaches_in};
ghost use Rattle.reach_marks.specs.BlockMarks.{IsMarkedWait, IsTold};
ghost use Rattle.reach_marks.specs.Columns.{AddsBlock};
ghost use Rattle.reach_marks.specs.declared.block.Block.TheVariants.{Empty};

use crate::column::Column;
use crate::pushing::push_joined_tag;
use crate::tags::{has_all_tagged, is_full_tag, tag_at};
use event_graph::{Graph, Order};
use std::alloc::{AllocError, Global};
use std::marker::Model;

/// For places of an order, from the first of a block of 1,024 on: which places of the block are marked for each. What is marked is before it.
#[derive(Drop)]
pub struct BlockReach {
    block: usize,
    pool: Vec<[u64; 16]>,
    column: Column,
}

impl Model for BlockReach {
    ghost use Rattle.std.specs.Prelude.{map};
    ghost use Rattle.reach_marks.specs.Blocks.{block_of};
    ghost use Rattle.reach_marks.specs.BlockMarks.{BlockMarks};
    ghost use Rattle.reach_marks.specs.Columns.{AreTags};

    ghost Value = { BlockMarks };

    ghost view = { λ r. record { block = r.block; rows = map (block_of r.pool.items) r.column } };

    ghost invariant = { λ r. AreTags r.column r.pool.items };
}

impl BlockReach {
    // Nothing is marked for the first place.
    fn begin(alloc: Global, block: usize, room: usize) -> Result<BlockReach, AllocError>
        ensures { IfOk result (λ r. r ≡ record { block = block; rows = Empty ∷ [] }) }
    {
        let column = Column::with_room(alloc, room)?;
        Ok(BlockReach {
            block,
            pool: Vec::new(alloc),
            column,
        })
    }

    // Whether a place has a row here.
    fn has_row(&self, place: usize) -> bool
        ensures { result ≡ true → place < 1024 * self.now.block + length self.now.rows }
    {
        let rows = self.column.as_slice();
        place / 1024 >= self.block && place - 1024 * self.block < rows.len()
    }

    // Whether the whole block is marked for a place.
    fn is_whole(&self, place: usize) -> bool
        requires { place < 1024 * self.now.block + length self.now.rows }
        ensures { result ≡ is_full_block (block_in self.now.block self.now.rows place) }
    {
        is_full_tag(tag_at(self.column.as_slice(), self.block, place))
    }

    // The place of a node that has a row here.
    fn place_in(&self, order: &Order, node: usize) -> Option<usize>
        ensures row { IfSome result (λ w. w < 1024 * self.now.block + length self.now.rows) }
        ensures node { IfSome result (λ w. slice_index order.now w ≡ node) }
    {
        let place = order.place(node)?;
        if self.has_row(place) {
            Some(place)
        } else {
            None
        }
    }

    // Makes the list that of the places that a node waits on, as far as they have rows here. Where the whole block is marked for one of them, it stands alone.
    fn list_waits(
        &self,
        waits: &mut Vec<usize>,
        graph: &Graph,
        order: &Order,
        node: usize,
    ) -> Result<(), AllocError>
        ensures { OnOk result (All (IsMarkedWait graph.now order.now self.now node) waits.new.items) }
    {
        waits.clear();
        for k in 0..usize::MAX {
            let Some(on) = graph.wait_at(node, k) else {
                return Ok(());
            };
            if let Some(place) = self.place_in(order, on) {
                if self.is_whole(place) {
                    waits.clear();
                    waits.push(place)?;
                    return Ok(());
                }
                waits.push(place)?;
            }
        }
        Ok(())
    }

    // With the row of the next place, which waits on these.
    fn with_row(self, waits: &[usize]) -> Result<BlockReach, AllocError>
        requires { All (λ w. w < 1024 * self.block + length self.rows) waits.now }
        ensures block { IfOk result (λ r. r.block ≡ self.block) }
        ensures row { IfOk result (λ r. AddsBlock self.rows r.rows
            (λ i. list_any (λ w. reaches_in self.block self.rows w i) waits.now)) }
    {
        let BlockReach {
            block,
            pool,
            column,
        } = self;
        let mut pool = pool;
        let mut column = column;
        push_joined_tag(&mut pool, &mut column, block, 0, waits)?;
        Ok(BlockReach {
            block,
            pool,
            column,
        })
    }

    /// What is before the nodes up to a place, of those of one block: of a block whose first place is one of the order. It takes at most 128 bytes and a tag for each of those nodes.
    pub fn build(
        alloc: Global,
        graph: &Graph,
        order: &Order,
        block: usize,
        last: usize,
    ) -> Result<BlockReach, AllocError>
        requires { 1024 * block < length order.now }
        ensures block { IfOk result (λ r. r.block ≡ block) }
        ensures told { IfOk result (IsTold graph.now order.now) }
    {
        let nodes = order.as_slice();
        let first = 1024 * block;
        let end = nodes.len().min(last.saturating_add(1));
        let mut reach = BlockReach::begin(alloc, block, end.saturating_sub(first))?;
        let mut waits = Vec::new(alloc);
        for place in first + 1..end {
            reach.list_waits(&mut waits, graph, order, nodes[place])?;
            reach = reach.with_row(waits.as_slice())?;
        }
        Ok(reach)
    }

    /// Whether all places of the block whose bits are set are marked for a place.
    pub fn has_all(&self, place: usize, bits: &[u64; 16]) -> bool
        ensures { result ≡ true → (i : ℕ) → i < 1024 → has_bit bits.now i ≡ true
            → block_has (block_in self.now.block self.now.rows place) i ≡ true }
    {
        if !self.has_row(place) {
            return false;
        }
        let tag = tag_at(self.column.as_slice(), self.block, place);
        has_all_tagged(self.pool.as_slice(), tag, bits)
    }
}
