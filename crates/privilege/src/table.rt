//! The table of interference.

ghost use Rattle.std.specs.Prelude.{◌≡◌};
ghost use Rattle.privilege.specs.Allowed.{contains};
ghost use Rattle.privilege.specs.Interference.{agree, kind_of};

use crate::kinds::{Coherence, Kind, Priv};

/// Whether two privileges agree: both read, or both reduce with one operator.
pub fn agree(p: Priv, q: Priv) -> bool
    ensures { result ≡ agree p q }
{
    match (p, q) {
        (Priv::Ro, Priv::Ro) => true,
        (Priv::Red(one), Priv::Red(other)) => one == other,
        _ => false,
    }
}

/// Whether a privilege allows all that another does.
pub fn contains(outer: Priv, inner: Priv) -> bool
    ensures { result ≡ contains outer inner }
{
    match (outer, inner) {
        (Priv::Rw, _) | (Priv::Ro, Priv::Ro) | (Priv::Wd, Priv::Wd) => true,
        (Priv::Red(outer), Priv::Red(inner)) => outer == inner,
        _ => false,
    }
}

/// How two accesses to one place interfere, each with its privilege and its coherence.
pub fn kind(p: Priv, c: Coherence, q: Priv, d: Coherence) -> Kind
    ensures { result ≡ kind_of p c q d }
{
    if agree(p, q) {
        Kind::Free
    } else if c == Coherence::Atomic && d == Coherence::Atomic {
        Kind::Turn
    } else {
        Kind::Before
    }
}
