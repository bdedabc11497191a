//! Why there are no links.

use std::alloc::AllocError;

/// Why there are no links.
#[derive(Clone, Copy, PartialEq, Eq)]
pub enum TraceEnd {
    /// The log has no such read.
    NoRead,
    /// Memory ran out.
    Memory,
}

impl From<AllocError> for TraceEnd {
    ghost use Rattle.std.specs.Prelude.{◌≡◌};
    ghost use Rattle.provenance.specs.declared.ends.TraceEnd.TheVariants.{Memory};

    ghost from_gives = { λ _ e. e ≡ Memory };

    fn from(_: AllocError) -> TraceEnd {
        TraceEnd::Memory
    }
}
