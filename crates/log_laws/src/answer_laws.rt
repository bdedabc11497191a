//! Laws of the orders in which the steps of a run may have been taken.

ghost use Rattle.std.specs.Prelude.{◌≡◌, List};
ghost use Rattle.vocabulary.specs.Prelude.{Value, Cell, Move, Tables, Step, State, effect, sees, executed, ReadsIn, IsInterleaving, AreIndependent, NodesConflictByReads, IsRaceFree};

/// Two moves that conflict at no cell may change places, from any state: the state after them stays, and so does what the one reads.
#[tactic(auto, using(crate::proofs::lemmas::Swap::swapped_state, crate::proofs::lemmas::Swap::swapped_sight))]
pub fn swap_law()
    ensures state { (m n : Move) → AreIndependent m n → (s : State) (cell : Cell)
        → effect n (effect m s) cell ≡ effect m (effect n s) cell }
    ensures sight { (m n : Move) → AreIndependent m n → (s : State) → sees n (effect m s) ≡ sees n s }
{}

/// All interleavings of a log without a race end in one state, and in all of them each step reads the same value.
pub fn one_answer()
    ensures state { (t : Tables) → NodesConflictByReads t → IsRaceFree t → (xs ys : List Step) → IsInterleaving t xs
        → IsInterleaving t ys
        → (s : State) (cell : Cell) → executed xs s cell ≡ executed ys s cell }
    ensures reads { (t : Tables) → NodesConflictByReads t → IsRaceFree t → (xs ys : List Step) → IsInterleaving t xs
        → IsInterleaving t ys
        → (s : State) (x : Step) (v : Value) → ReadsIn xs s x v → ReadsIn ys s x v }
{}
