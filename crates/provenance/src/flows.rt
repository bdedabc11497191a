//! What a move does to a cell, as far as it matters where the cell's value came from.

ghost use Rattle.std.specs.Prelude.{◌≡◌};
ghost use Rattle.semantics.specs.Links.{flow, flow_at};
ghost use Rattle.provenance.specs.Tracing.{meant};

use semantics::{Cell, Move};

/// What a move does to a cell.
#[derive(Clone, Copy)]
pub(crate) enum Flow {
    /// Nothing.
    Leaves,
    /// It adds to what the cell holds.
    Adds,
    /// It puts something of its own there.
    Puts,
    /// It puts there what another cell holds.
    Takes { from: Cell },
}

/// What is done to a cell, if it is this cell.
fn flow_at(cell: Cell, here: Flow, c: Cell) -> Flow
    ensures { meant result ≡ flow_at cell (meant here) c }
{
    if c == cell { here } else { Flow::Leaves }
}

/// What a move does to a cell.
#[tactic(auto, unfolding(semantics::specs::Links::flow))]
pub(crate) fn flow_of(step: &Move, c: Cell) -> Flow
    ensures { meant result ≡ flow step.now c }
{
    match *step {
        Move::Read { .. } => Flow::Leaves,
        Move::Write { cell, .. } => flow_at(cell, Flow::Puts, c),
        Move::Reduce { cell, .. } => flow_at(cell, Flow::Adds, c),
        Move::Copy { from, to } => flow_at(to, Flow::Takes { from }, c),
        Move::Put { cell, .. } => flow_at(cell, Flow::Puts, c),
        Move::Reset { .. } => Flow::Leaves,
        Move::Fold { to, .. } => flow_at(to, Flow::Adds, c),
    }
}
