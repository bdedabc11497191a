//! What the rows have in one block.

ghost use Rattle.std.specs.Prelude.{◌≡◌, ◌++◌, ◌∷◌, [], OnOk, IfOk};

use std::alloc::{AllocError, Global};
use std::marker::Model;

/// For each row from the block's own first place on a tag: nothing of the block is in the row, all of it, or what a place in the pool of bits has. Rows with the same places here share their bits.
#[derive(Drop)]
pub struct Column {
    tags: Vec<usize>,
}

impl Model for Column {
    ghost use Rattle.std.specs.Prelude.{List, ℕ};

    ghost Value = { List ℕ };

    ghost view = { λ c. c.tags.items };
}

impl Column {
    /// The column of its first row, which has nothing in it, with room for so many rows.
    pub(crate) fn with_room(alloc: Global, rows: usize) -> Result<Column, AllocError>
        ensures { IfOk result (λ c. c ≡ 0 ∷ []) }
    {
        let mut tags = Vec::with_capacity(alloc, rows)?;
        tags.push(0)?;
        Ok(Column { tags })
    }

    /// Adds the tag of the next row.
    #[inline]
    pub(crate) fn push(&mut self, tag: usize) -> Result<(), AllocError>
        ensures { OnOk result (self.new ≡ self.old ++ tag ∷ []) }
    {
        self.tags.push(tag)?;
        Ok(())
    }

    /// The tags.
    #[inline]
    pub(crate) fn as_slice(&self) -> &[usize]
        ensures { result.now ≡ self.now }
    {
        self.tags.as_slice()
    }
}
