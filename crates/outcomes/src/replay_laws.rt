//! Laws that carry what one replay shows to every interleaving. Each function has nothing to do: its contract is the law.

ghost use Rattle.std.specs.Prelude.{◌≡◌, ℕ, None, Some, List};
ghost use Rattle.std.specs.List.{AllByRecursion};
ghost use Rattle.vocabulary.specs.Prelude.{Lined, Good, records_of, tables_of, IsRaceFree, Differs, IsRight, Seen, shown_difference, HasNoCycle};
ghost use Rattle.semantics.specs.declared.command.Command.TheVariants.{Check};
ghost use Rattle.semantics.specs.Faults.{log_fault};

/// In a log without a fault, a cycle and a race: where the replay shows no differing read, each read is right in every interleaving; and a read that it shows differs in every interleaving.
#[tactic(auto, using(crate::proofs::lemmas::Replays::right_everywhere, crate::proofs::lemmas::Replays::differs_everywhere))]
pub fn replays_speak_for_all()
    ensures right { (lines : ℕ) (log : List Lined) → AllByRecursion Good (records_of log)
        → log_fault Check lines log ≡ None
        → HasNoCycle (tables_of log) → IsRaceFree (tables_of log) → shown_difference (tables_of log) ≡ None
        → IsRight (tables_of log) }
    ensures differs { (lines : ℕ) (log : List Lined) → AllByRecursion Good (records_of log)
        → log_fault Check lines log ≡ None
        → HasNoCycle (tables_of log) → IsRaceFree (tables_of log) → (r : Seen)
        → shown_difference (tables_of log) ≡ Some r → Differs (tables_of log) r }
{}
