//! The earliest of some uses of one place.

ghost use Rattle.std.specs.Prelude.{◌≡◌, ◌≤◌, ◌-◌, ◌^◌, false};
ghost use Rattle.privilege.specs.declared.kinds.Priv.{Priv};
ghost use Rattle.privilege.specs.Interference.{agree};
ghost use Rattle.earliest_uses.specs.Earlier.{against};

use crate::first_two::Earliest;
use privilege::{Priv, agree};

impl Earliest {
    /// That of no use.
    pub(crate) fn none() -> Earliest
        ensures { (q : Priv) → against result q ≡ 2 ^ 64 - 1 }
    {
        Earliest {
            access: Priv::Ro,
            position: usize::MAX,
            other: usize::MAX,
        }
    }

    /// The serial position of the earliest use that does not agree with an access.
    pub(crate) fn against(self, access: Priv) -> usize
        ensures { result ≡ against self access }
    {
        if agree(access, self.access) {
            self.other
        } else {
            self.position
        }
    }

    /// That of one use more.
    pub(crate) fn with(self, access: Priv, position: usize) -> Earliest
        ensures lower { (q : Priv) → against result q ≤ against self q }
        ensures noted { (q : Priv) → agree q access ≡ false → against result q ≤ position }
    {
        if agree(access, self.access) {
            Earliest {
                access: self.access,
                position: self.position.min(position),
                other: self.other,
            }
        } else if position < self.position {
            Earliest {
                access,
                position,
                other: self.position,
            }
        } else {
            Earliest {
                access: self.access,
                position: self.position,
                other: self.other.min(position),
            }
        }
    }
}
