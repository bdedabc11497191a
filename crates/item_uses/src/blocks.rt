//! Bounds on blocks of items, so that a whole block is passed over at once.

ghost use Rattle.std.specs.Prelude.{◌≡◌, ℕ, ◌<◌, ◌≤◌, length, IfOk};
ghost use Rattle.item_uses.specs.Usages.{usages_at};
ghost use Rattle.item_uses.specs.Spans.{Bounds};
ghost use Rattle.item_uses.specs.Blocks.{AreBlocks};

use crate::item::ItemUses;
use crate::span::Span;
use point_set::PointSet;
use std::alloc::{AllocError, Global};

/// Bounds on the items from one to before another.
fn span_of<'a, P: PointSet + Copy>(items: &[ItemUses<'a, P>], from: usize, to: usize) -> Span
    requires { to ≤ length items.now }
    ensures { (i : ℕ) → from ≤ i → i < to → Bounds result (usages_at items.now i) }
{
    let mut span = Span::empty();
    for i in from..to {
        span = span.union(items[i].span());
    }
    span
}

/// Bounds on each 64 items, from the first on.
pub fn spans_of_blocks<'a, P: PointSet + Copy>(
    alloc: Global,
    items: &[ItemUses<'a, P>],
) -> Result<Vec<Span>, AllocError>
    ensures { IfOk result (λ blocks. AreBlocks blocks.items items.now) }
{
    let mut blocks = Vec::new(alloc);
    let count = items.len() / 64 + 1;
    for k in 0..count {
        let from = 64 * k;
        let to = from + (items.len() - from).min(64);
        blocks.push(span_of(items, from, to))?;
    }
    Ok(blocks)
}
