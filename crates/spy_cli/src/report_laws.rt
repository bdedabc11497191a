//! Laws of what is answered. Each function has nothing to do: its contract is the law.

ghost use Rattle.std.specs.Prelude.{◌≡◌, ◌↔◌, ℕ, List};
ghost use Rattle.vocabulary.specs.Prelude.{Lined, Command, Reads, lined, line_count, records_of};
ghost use Rattle.findings.specs.declared.finding.Finding.{Finding};
ghost use Rattle.outcomes.specs.Outcome.{IsFound, IsOutcome, IsPrinted};
ghost use Rattle.outcomes.specs.LaunchOutcome.{IsExpanded};
ghost use Rattle.spy_args.specs.declared.request.Request.{Request};
ghost use Rattle.spy_args.specs.Asked.{IsSized};
ghost use Rattle.spy_cli.specs.declared.status.Status.{Status};
ghost use Rattle.spy_cli.specs.Answers.{IsAdmitted, IsAnswer, IsAnswerLong};
ghost use Rattle.spy_cli.specs.Cut.{IsCut, ShowsCut};

/// One thing is answered to an input.
pub fn one_report()
    ensures { (request : Request) (bytes : List ℕ) (status other : Status) (text words : List ℕ)
        → IsSized request → IsAnswer request bytes status text → IsAnswer request bytes other words
        → (status ≡ other) × (text ≡ words) }
{}

/// What is answered to an input under `check` is the same by long values as by values.
pub fn answers_in_long()
    ensures { (bytes : List ℕ) (status : Status) (text : List ℕ)
        → IsAnswer (Request.Judge Command.Check) bytes status text ↔ IsAnswerLong bytes status text }
{}

/// What `print` writes, it writes again unchanged; and each command finds in it what it finds in the records of the input, counted from line 1.
pub fn printed_again()
    ensures print { (bytes text : List ℕ) → IsPrinted bytes text → IsPrinted text text }
    ensures found { (bytes text : List ℕ) → IsPrinted bytes text → (log : List Lined) → Reads bytes log
        → (command : Command) (f : Finding) → IsOutcome command text f
        ↔ IsFound command (line_count text) (lined (records_of log)) f }
{}

/// Where `expand` writes a log, `launched` answers what `check` answers to it.
pub fn launched_is_checked()
    ensures { (bytes written : List ℕ) → IsExpanded bytes written → (status : Status) (text : List ℕ)
        → IsAnswer Request.Launched bytes status text ↔ IsAnswer (Request.Judge Command.Check) written status text }
{}

/// The front of a log that keeps its rules, cut off before the line of `end` does, shows that: its fault is `newline`, `header` or `ended`.
pub fn cut_logs_show_it()
    ensures { (command : Command) (bytes front : List ℕ) (keeps : IsAdmitted command bytes)
        → IsCut bytes keeps.log front → ShowsCut command front }
{}
