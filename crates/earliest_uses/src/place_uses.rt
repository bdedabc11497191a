//! The earliest uses of one place.

ghost use Rattle.std.specs.Prelude.{◌≡◌, ◌≤◌, ◌-◌, ◌^◌};
ghost use Rattle.earliest_uses.specs.declared.serial_use.SerialUse.{SerialUse};
ghost use Rattle.earliest_uses.specs.Earlier.{IsNoted, bound};

use crate::first_two::Earliest;
use crate::serial_use::SerialUse;
use privilege::Coherence;

/// The earliest of the uses of a place, of all and of the exclusive ones.
#[derive(Clone, Copy)]
pub(crate) struct PlaceUses {
    all: Earliest,
    exclusive: Earliest,
}

impl PlaceUses {
    /// Those of a place that has no use.
    pub(crate) fn none() -> PlaceUses
        ensures { (u : SerialUse) → bound result u ≡ 2 ^ 64 - 1 }
    {
        PlaceUses {
            all: Earliest::none(),
            exclusive: Earliest::none(),
        }
    }

    /// The serial position of the earliest use with which another may not change places.
    pub(crate) fn bound(self, one: SerialUse) -> usize
        ensures { result ≡ bound self one }
    {
        match one.coherence {
            Coherence::Exclusive => self.all.against(one.access),
            Coherence::Atomic => self.exclusive.against(one.access),
        }
    }

    /// Those of one use more.
    pub(crate) fn with(self, one: SerialUse) -> PlaceUses
        ensures lower { (u : SerialUse) → bound result u ≤ bound self u }
        ensures noted { IsNoted (bound result) one }
    {
        PlaceUses {
            all: self.all.with(one.access, one.position),
            exclusive: match one.coherence {
                Coherence::Exclusive => self.exclusive.with(one.access, one.position),
                Coherence::Atomic => self.exclusive,
            },
        }
    }
}
