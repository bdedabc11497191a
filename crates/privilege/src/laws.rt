//! Laws over the definitions alone. The functions here have nothing to do: their contracts are the laws.

ghost use Rattle.std.specs.Prelude.{◌≡◌, ◌↔◌, true};
ghost use Rattle.privilege.specs.declared.kinds.Priv.{Priv};
ghost use Rattle.privilege.specs.declared.kinds.Coherence.{Coherence};
ghost use Rattle.privilege.specs.declared.kinds.Kind.{Kind};
ghost use Rattle.privilege.specs.declared.kinds.Kind.TheVariants as kinds;
ghost use Rattle.privilege.specs.Allowed.{contains};
ghost use Rattle.privilege.specs.Interference.{agree, kind_of, stronger};

/// The kind of two accesses is one from either side, and free exactly where they agree. The strongest of several
/// kinds does not depend on the order in which they are taken.
pub fn kind_laws()
    ensures symmetric { (p q : Priv) (c d : Coherence) → kind_of p c q d ≡ kind_of q d p c }
    ensures free { (p q : Priv) (c d : Coherence) → (kind_of p c q d ≡ kinds.Free) ↔ (agree p q ≡ true) }
    ensures commutes { (j k : Kind) → stronger j k ≡ stronger k j }
    ensures associates { (j k l : Kind) → stronger (stronger j k) l ≡ stronger j (stronger k l) }
    ensures idempotent { (k : Kind) → stronger k k ≡ k }
    ensures unit { (k : Kind) → stronger kinds.Free k ≡ k }
{}

/// A privilege that is contained in another interferes with nothing more strongly than the other does, and a privilege contains what is contained in one that it contains.
pub fn contained_kinds()
    ensures no_stronger { (outer inner : Priv) → contains outer inner ≡ true → (p : Priv) (c d : Coherence)
        → stronger (kind_of inner c p d) (kind_of outer c p d) ≡ kind_of outer c p d }
    ensures itself { (p : Priv) → contains p p ≡ true }
    ensures transitive { (p q r : Priv) → contains p q ≡ true → contains q r ≡ true → contains p r ≡ true }
{}
