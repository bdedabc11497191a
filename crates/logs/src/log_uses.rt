//! What the items of a log ask for.

ghost use Rattle.std.specs.Prelude.{◌≡◌, ◌<◌, length, IfOk, IfSome, IsSome};
ghost use Rattle.item_uses.specs.Blocks.{AreBlocks};
ghost use Rattle.item_uses.specs.Representatives.{AreRepresentatives};
ghost use Rattle.item_uses.specs.Usages.{usages};

use bumpalo::Bump;
use item_uses::{ItemUses, Span, representatives, spans_of_blocks, uses_of_items};
use log_tables::LogTables;
use point_set::PointSet;
use region_tree::Memory;
use std::alloc::Global;
use std::marker::Model;

/// What each item of a log asks for, with bounds on each 64 items, and for each item one that asks for the same. Contracts see what they ask for.
#[derive(Drop)]
pub struct LogUses<'a, P: PointSet + Copy> {
    uses: Vec<ItemUses<'a, P>>,
    blocks: Vec<Span>,
    representatives: Vec<usize>,
}

impl<'a, P: PointSet + Copy> Model for LogUses<'a, P> {
    ghost use Rattle.std.specs.Prelude.{List};
    ghost use Rattle.item_uses.specs.Blocks.{AreBlocks};
    ghost use Rattle.item_uses.specs.Representatives.{AreRepresentatives};
    ghost use Rattle.item_uses.specs.Usages.{Usage};

    ghost Value = { List (List Usage) };

    ghost view = { λ u. u.uses.items };

    ghost invariant = { λ u. AreBlocks u.blocks.items u.uses.items × AreRepresentatives u.representatives.items u.uses.items };
}

impl<'a, P: PointSet + Copy> LogUses<'a, P> {
    /// What the items of these tables ask for.
    pub(crate) fn of(
        alloc: Global,
        bump: &'a Bump,
        tables: &LogTables<P>,
    ) -> Result<LogUses<'a, P>, Memory>
        ensures { IfOk result (λ u. u ≡ usages tables.now) }
    {
        let uses = uses_of_items(alloc, bump, tables)?;
        let blocks = spans_of_blocks(alloc, &uses)?;
        let representatives = representatives(alloc, &uses)?;
        Ok(LogUses {
            uses,
            blocks,
            representatives,
        })
    }

    /// What each item asks for, in program order.
    pub fn items(&self) -> &[ItemUses<'a, P>]
        ensures { result.now ≡ self.now }
    {
        self.uses.as_slice()
    }

    /// Bounds on what each 64 items ask for.
    pub fn blocks(&self) -> &[Span]
        ensures { AreBlocks result.now self.now }
    {
        self.blocks.as_slice()
    }

    /// For each item one that asks for the same.
    pub fn representatives(&self) -> &[usize]
        ensures { AreRepresentatives result.now self.now }
    {
        self.representatives.as_slice()
    }
}

/// What the items ask for, where a line lists some in serial order: nothing else is asked of every log.
pub(crate) fn uses_where_listed<'a, P: PointSet + Copy>(
    alloc: Global,
    bump: &'a Bump,
    tables: &LogTables<P>,
) -> Result<Option<LogUses<'a, P>>, Memory>
    ensures uses { IfOk result (λ asked. IfSome asked (λ u. u ≡ usages tables.now)) }
    ensures some { IfOk result (λ asked. 0 < length tables.now.serials → IsSome asked) }
{
    if tables.serials().is_empty() {
        return Ok(None);
    }
    let uses = LogUses::of(alloc, bump, tables)?;
    Ok(Some(uses))
}
