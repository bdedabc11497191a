//! What a step does.

use crate::places::Cell;

/// What one step of an operation does to one cell, or from one cell to another.
#[derive(Clone, Copy, PartialEq, Eq)]
pub enum Move {
    /// The task reads the cell, for its requirement of this number.
    Read {
        task: u32,
        req: u32,
        cell: Cell,
    },
    /// The task writes the cell.
    Write {
        task: u32,
        cell: Cell,
    },
    /// The task adds its contribution to the cell, for its requirement of this number.
    Reduce {
        task: u32,
        req: u32,
        op: u32,
        cell: Cell,
    },
    /// The value of one cell goes into another.
    Copy {
        from: Cell,
        to: Cell,
    },
    /// The constant `n` goes into the cell.
    Put {
        cell: Cell,
        n: u32,
    },
    /// The cell holds no contributions from now on.
    Reset {
        cell: Cell,
    },
    /// What one cell has gathered with this operator is added to another.
    Fold {
        op: u32,
        from: Cell,
        to: Cell,
    },
}
