//! How a replay ends.

use value_terms::{Memory, Value};

/// What a replay found right.
#[derive(Clone, Copy, PartialEq, Eq)]
pub struct Reads {
    /// The reads of all tasks: a point and a field of a requirement each.
    pub count: u64,
}

/// Why a replay does not find each read right.
#[derive(Drop)]
pub enum ReplayEnd {
    /// The task read this for its requirement of this number at a point and a field, and should have read that.
    Differ {
        task: u32,
        req: u32,
        point: u64,
        field: u32,
        got: Value,
        want: Value,
    },
    /// Memory ran out.
    Memory,
}

impl From<Memory> for ReplayEnd {
    ghost use Rattle.std.specs.Prelude.{◌≡◌};
    ghost use Rattle.replay.specs.declared.ends.ReplayEnd.TheVariants.{Memory};

    ghost from_gives = { λ _ e. e ≡ Memory };

    fn from(_: Memory) -> ReplayEnd {
        ReplayEnd::Memory
    }
}
