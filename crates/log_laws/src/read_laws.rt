//! Laws of the logs that inputs hold.

ghost use Rattle.std.specs.Prelude.{◌≡◌, ℕ, None, List};
ghost use Rattle.std.specs.List.{AllByRecursion};
ghost use Rattle.vocabulary.specs.Prelude.{Lined, Good, Hold, Reads, lined, records_of, text_of};
ghost use Rattle.semantics.specs.TextFaults.{text_fault};

/// The records of a log that lines hold, or that is read, are good.
pub fn read_logs_are_good()
    ensures held { (line : ℕ) (lines : List (List ℕ)) (log : List Lined) → Hold line lines log
        → AllByRecursion Good (records_of log) }
    ensures read { (bytes : List ℕ) (log : List Lined) → Reads bytes log
        → AllByRecursion Good (records_of log) }
{}

/// No input holds two logs.
#[tactic(auto, using(crate::proofs::lemmas::ReadLogs::one_read))]
pub fn one_log()
    ensures { (bytes : List ℕ) (log other : List Lined) → Reads bytes log → Reads bytes other → log ≡ other }
{}

/// The text of the records of an input has no fault of its bytes or lines if the input has none, and holds these records and nothing else.
pub fn printed_logs_are_read()
    ensures fault { (bytes : List ℕ) (log : List Lined) → text_fault bytes ≡ None → Reads bytes log
        → text_fault (text_of (records_of log)) ≡ None }
    ensures log { (bytes : List ℕ) (log : List Lined) → Reads bytes log
        → Reads (text_of (records_of log)) (lined (records_of log)) }
    ensures records { (bytes : List ℕ) (log : List Lined) → Reads bytes log
        → records_of (lined (records_of log)) ≡ records_of log }
{}
