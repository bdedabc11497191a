//! Why declarations are refused.

ghost use Rattle.std.specs.Prelude.{◌≡◌};
ghost use Rattle.region_tree.specs.declared.forest_fault.ForestFault.TheVariants.{Memory};

use std::alloc::{AllocError, AllocFailed};

/// Why declarations are refused. A subspace is named by its place among the declared ones, from 0.
#[derive(Clone, Copy)]
pub enum ForestFault {
    /// The least faulty subspace has this point, the least of them, that the space which its partition cuts has not.
    NotWithin {
        sub: usize,
        point: u64,
    },

    /// The least faulty subspace is within that space, and meets an earlier one, the least of them, of its disjoint partition. `point` is the least that the two share.
    NotDisjoint {
        sub: usize,
        other: usize,
        point: u64,
    },

    /// Memory ran out.
    Memory,
}

impl From<AllocError> for ForestFault {
    ghost from_gives = { λ _ e. e ≡ Memory };

    fn from(_: AllocError) -> ForestFault {
        ForestFault::Memory
    }
}

impl<T: Drop> From<AllocFailed<T>> for ForestFault {
    ghost from_gives = { λ _ e. e ≡ Memory };

    fn from(_: AllocFailed<T>) -> ForestFault {
        ForestFault::Memory
    }
}
