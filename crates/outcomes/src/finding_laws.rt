//! Laws of what is found. Each function has nothing to do: its contract is the law.

ghost use Rattle.std.specs.Prelude.{◌≡◌, ℕ, List};
ghost use Rattle.std.specs.List.{AllByRecursion};
ghost use Rattle.vocabulary.specs.Prelude.{Lined, Good, Command, records_of};
ghost use Rattle.findings.specs.declared.finding.Finding.{Finding};
ghost use Rattle.outcomes.specs.Outcome.{IsFound, IsOutcome};

/// A command finds one thing in a log.
#[tactic(auto, using(crate::proofs::lemmas::Found::one_found))]
pub fn one_finding()
    ensures { (command : Command) (lines : ℕ) (log : List Lined) → AllByRecursion Good (records_of log)
        → (f g : Finding) → IsFound command lines log f → IsFound command lines log g → f ≡ g }
{}

/// A command has one outcome on an input.
pub fn one_outcome()
    ensures { (command : Command) (bytes : List ℕ) (f g : Finding) → IsOutcome command bytes f
        → IsOutcome command bytes g → f ≡ g }
{}

/// A command finds something in each log.
pub fn some_finding()
    ensures { (command : Command) (lines : ℕ) (log : List Lined) → AllByRecursion Good (records_of log)
        → (f : Finding) × IsFound command lines log f }
{}

/// A command has an outcome on each input: with [`one_outcome`], exactly one.
pub fn some_outcome()
    ensures { (command : Command) (bytes : List ℕ) → (f : Finding) × IsOutcome command bytes f }
{}
