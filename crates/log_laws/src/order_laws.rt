//! Laws of the order in which a log is replayed.

ghost use Rattle.std.specs.Prelude.{◌≡◌, ◌≢◌, ◌↔◌, ℕ, ◌<◌, List, ◌∷◌, ◌++◌, length, true, false, Some, None, Contains, AllPairs};
ghost use Rattle.vocabulary.specs.Prelude.{Node, WaitsOn, Before, IsCycle, AreLinked};
ghost use Rattle.semantics.specs.ReplayOrder.{replay_order, is_stuck, shown_cycle};

/// The replay order has each node that is not stuck once, and after all nodes that come before it.
pub fn replay_order_lists()
    ensures once { (nodes : List Node) → AllPairs (λ a b. a ≢ b) (replay_order nodes) }
    ensures nodes { (nodes : List Node) (k : ℕ) → Contains (replay_order nodes) k
        ↔ ((k < length nodes) × (is_stuck nodes k ≡ false)) }
    ensures behind { (nodes : List Node) → AreLinked nodes → (front : List ℕ) (k : ℕ) (back : List ℕ)
        → replay_order nodes ≡ front ++ k ∷ back
        → (j : ℕ) → WaitsOn nodes k j → Contains front j }
    ensures before { (nodes : List Node) → AreLinked nodes → (front : List ℕ) (k : ℕ) (back : List ℕ)
        → replay_order nodes ≡ front ++ k ∷ back
        → (j : ℕ) → Before nodes j k → Contains front j }
{}

/// There is a stuck node exactly where there is a cycle, and then a cycle is shown.
pub fn stuck_nodes_have_cycles()
    ensures stuck { (nodes : List Node) → AreLinked nodes → (k : ℕ) → k < length nodes
        → is_stuck nodes k ≡ true → (c : List ℕ) × IsCycle nodes c }
    ensures on_cycle { (nodes : List Node) → AreLinked nodes → (c : List ℕ) → IsCycle nodes c → (k : ℕ)
        → Contains c k → is_stuck nodes k ≡ true }
    ensures shown { (nodes : List Node) → AreLinked nodes → (c : List ℕ) → shown_cycle nodes ≡ Some c
        → IsCycle nodes c }
    ensures none { (nodes : List Node) → (shown_cycle nodes ≡ None)
        ↔ ((k : ℕ) → k < length nodes → is_stuck nodes k ≡ false) }
{}
