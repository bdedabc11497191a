//! The privileges of some requirements.

ghost use Rattle.std.specs.Prelude.{◌≡◌, true};
ghost use Rattle.vocabulary.specs.Prelude.{Priv, agree};
ghost use Rattle.item_uses.specs.Accesses.{IsAmong, all_agree};

use privilege::{Priv, agree};

/// The privileges of some requirements, as far as they tell whether all agree.
#[derive(Clone, Copy, PartialEq, Eq)]
pub enum Accesses {
    /// There are none.
    Nothing,
    /// Each is this one, and agrees with it: all read, or all reduce with one operator.
    Same(Priv),
    /// They may differ.
    Mixed,
}

/// Two privileges, as one if they agree.
#[tactic(auto, using(crate::proofs::Agreeing::agree_also))]
fn both(p: Priv, q: Priv) -> Accesses
    ensures ours { (r : Priv) → agree p r ≡ true → IsAmong result r }
    ensures theirs { (r : Priv) → agree q r ≡ true → IsAmong result r }
{
    if agree(p, q) {
        Accesses::Same(p)
    } else {
        Accesses::Mixed
    }
}

impl Accesses {
    /// That of one requirement.
    pub(crate) fn of(access: Priv) -> Accesses
        ensures { IsAmong result access }
    {
        if agree(access, access) {
            Accesses::Same(access)
        } else {
            Accesses::Mixed
        }
    }

    /// Those that are among either.
    pub(crate) fn union(self, other: Accesses) -> Accesses
        ensures ours { (r : Priv) → IsAmong self r → IsAmong result r }
        ensures theirs { (r : Priv) → IsAmong other r → IsAmong result r }
    {
        match (self, other) {
            (Accesses::Nothing, all) => all,
            (all, Accesses::Nothing) => all,
            (Accesses::Same(p), Accesses::Same(q)) => both(p, q),
            _ => Accesses::Mixed,
        }
    }

    /// Whether each of these agrees with each of those, so far as is known.
    pub(crate) fn all_agree(self, other: Accesses) -> bool
        ensures { result ≡ all_agree self other }
    {
        match (self, other) {
            (Accesses::Same(p), Accesses::Same(q)) => agree(p, q),
            _ => false,
        }
    }
}
