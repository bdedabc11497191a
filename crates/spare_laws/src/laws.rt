//! Laws of listed waits that others imply. A function has nothing to do: its contract is the law.

ghost use Rattle.std.specs.Prelude.{◌≡◌, ℕ, List, ◌∷◌, Some, Contains, slice_get};
ghost use Rattle.vocabulary.specs.Prelude.{ListedWait, Node, AreLinked, IsCycle};
ghost use Rattle.semantics.specs.ReplayOrder.{waits_at};
ghost use Rattle.semantics.specs.Spare.{AreSpareWaits, HaveSameBefore, without};

/// Where there is no cycle, the same nodes are before the same ones without all spare waits. Without one listed wait more, whichever, they are not.
pub fn spare_waits_are_implied()
    ensures same { (nodes : List Node) → AreLinked nodes
        → ((cycle : List ℕ) → IsCycle nodes cycle → ⊥) → (list : List ListedWait) → AreSpareWaits nodes list
        → HaveSameBefore (without list nodes) nodes }
    ensures least { (nodes : List Node) → AreLinked nodes
        → ((cycle : List ℕ) → IsCycle nodes cycle → ⊥) → (list : List ListedWait) → AreSpareWaits nodes list
        → (w : ListedWait) (event : ℕ) → slice_get (waits_at nodes w.node) w.k ≡ Some event
        → (Contains list w → ⊥) → HaveSameBefore (without (w ∷ list) nodes) (without list nodes) → ⊥ }
{}
