//! What an operation does at each of some points and fields.

use semantics::Move;

/// What one sweep of an operation does at each point and field. A requirement is named by the position of its item and its number there, and by its own position.
#[derive(Clone, Copy)]
pub(crate) enum Act {
    Read {
        task: u32,
        item: usize,
        number: u32,
        req: Option<usize>,
    },
    Write {
        task: u32,
        item: usize,
        number: u32,
        req: Option<usize>,
    },
    Reduce {
        task: u32,
        item: usize,
        number: u32,
        req: Option<usize>,
        op: u32,
    },
    Copy {
        src: u32,
        dst: u32,
    },
    Put {
        inst: u32,
        n: u32,
    },
    Reset {
        inst: u32,
    },
    Fold {
        op: u32,
        src: u32,
        dst: u32,
    },
}

/// A move of a node, with the position of the requirement by which a run makes it.
#[derive(Clone, Copy, PartialEq, Eq)]
pub struct Action {
    pub req: Option<usize>,
    pub step: Move,
}
