//! Laws of logs without a fault: of those whose records are good, and of which a command shows none.

ghost use Rattle.std.specs.Prelude.{◌≡◌, ◌≢◌, ℕ, None, List, ◌∷◌, ◌++◌, AllPairs};
ghost use Rattle.std.specs.List.{AllByRecursion};
ghost use Rattle.vocabulary.specs.Prelude.{Value, Lined, Good, Cell, records_of, Tables, tables_of, AreLinked, graph_of, HasNoCycle, Step, steps, State, effect, executed, sees, ReadsIn, AreUnordered, IsInterleaving, IsRaceFree, NodesConflictByReads, replay_steps, Command};
ghost use Rattle.semantics.specs.declared.command.Command.TheVariants.{Check};
ghost use Rattle.semantics.specs.Faults.{log_fault};

/// The nodes have different events, and wait on events of nodes alone.
pub fn faultless_logs_are_linked()
    ensures { (command : Command) (lines : ℕ) (log : List Lined) → AllByRecursion Good (records_of log)
        → log_fault command lines log ≡ None
        → AreLinked (graph_of (tables_of log).nodes) }
{}

/// Two steps of one node conflict only where the one is a read and the other is none.
pub fn faultless_nodes_conflict_by_reads()
    ensures { (lines : ℕ) (log : List Lined) → log_fault Check lines log ≡ None → NodesConflictByReads (tables_of log) }
{}

/// Where there is no cycle, the steps in replay order are an interleaving: so there is one.
pub fn replay_is_an_interleaving()
    ensures { (lines : ℕ) (log : List Lined) → AllByRecursion Good (records_of log)
        → log_fault Check lines log ≡ None
        → HasNoCycle (tables_of log) → IsInterleaving (tables_of log) (replay_steps (tables_of log)) }
{}

/// Where there is no race, all interleavings end in one state, and in all of them each step reads the same value.
pub fn faultless_logs_have_one_answer()
    ensures state { (lines : ℕ) (log : List Lined) → log_fault Check lines log ≡ None
        → IsRaceFree (tables_of log) → (xs ys : List Step)
        → IsInterleaving (tables_of log) xs → IsInterleaving (tables_of log) ys → (s : State) (cell : Cell)
        → executed xs s cell ≡ executed ys s cell }
    ensures reads { (lines : ℕ) (log : List Lined) → log_fault Check lines log ≡ None
        → IsRaceFree (tables_of log) → (xs ys : List Step)
        → IsInterleaving (tables_of log) xs → IsInterleaving (tables_of log) ys
        → (s : State) (x : Step) (v : Value) → ReadsIn xs s x v → ReadsIn ys s x v }
{}

/// A log lists no step twice.
pub fn steps_are_listed_once()
    ensures { (lines : ℕ) (log : List Lined) → AllByRecursion Good (records_of log)
        → log_fault Check lines log ≡ None → AllPairs (λ x y. x ≢ y) (steps (tables_of log)) }
{}

/// In a log without a race, two steps that nothing orders may change places: where they are neighbours in an interleaving, it stays one, the state after both is the same, and so is what either of them reads.
pub fn neighbours_may_change_places()
    ensures interleaving { (t : Tables) (front : List Step) (x y : Step) (back : List Step)
        → AreUnordered t x y → IsInterleaving t (front ++ x ∷ y ∷ back)
        → IsInterleaving t (front ++ y ∷ x ∷ back) }
    ensures state { (lines : ℕ) (log : List Lined) → log_fault Check lines log ≡ None
        → IsRaceFree (tables_of log) → (x y : Step) → AreUnordered (tables_of log) x y
        → (s : State) (cell : Cell)
        → effect y.move (effect x.move s) cell ≡ effect x.move (effect y.move s) cell }
    ensures sight { (lines : ℕ) (log : List Lined) → log_fault Check lines log ≡ None
        → IsRaceFree (tables_of log) → (x y : Step) → AreUnordered (tables_of log) x y → (s : State)
        → (sees y.move (effect x.move s) ≡ sees y.move s) × (sees x.move (effect y.move s) ≡ sees x.move s) }
{}
