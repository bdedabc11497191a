//! Laws of inputs. Each function has nothing to do: its contract is the law.

ghost use Rattle.std.specs.Prelude.{◌≡◌, ℕ, List, None};
ghost use Rattle.vocabulary.specs.Prelude.{Lined, Reads};
ghost use Rattle.semantics.specs.TextFaults.{text_fault};

/// An input without a fault of its bytes and lines spells a log.
#[tactic(auto, using(crate::proofs::Inputs::read_by))]
pub fn inputs_are_read()
    ensures { (bytes : List ℕ) → text_fault bytes ≡ None → (log : List Lined) × Reads bytes log }
{}
