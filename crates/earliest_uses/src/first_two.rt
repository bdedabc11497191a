//! The two positions that are kept of some uses of one place.

ghost use Rattle.std.specs.Prelude.{◌≤◌};
ghost use Rattle.std.proofs.Props.{props};

use privilege::Priv;

/// The serial position of the earliest of some uses with how it accesses the place, and that of the earliest use that does not agree with it. Where there is no such use, a position is the greatest number.
#[derive(Clone, Copy)]
pub(crate) struct Earliest {
    pub(crate) access: Priv,
    pub(crate) position: usize,
    pub(crate) other: usize,
    ghost ordered: { position ≤ other } by { Prim.hlevel props },
}
