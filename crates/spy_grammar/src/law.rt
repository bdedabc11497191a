//! Laws of the spelling.

ghost use Rattle.std.specs.Prelude.{◌≡◌, ◌≢◌, ◌↔◌, ℕ, true, false, List, [], None, Some, Ok, Err};
ghost use Rattle.std.specs.List.{All};
ghost use Rattle.spy_words.specs.declared.fault.LineFault.TheVariants as faults;
ghost use Rattle.spy_grammar.specs.declared.kinds.RecordKind.{RecordKind};
ghost use Rattle.spy_grammar.specs.declared.record.Record.{Record};
ghost use Rattle.spy_grammar.specs.LineFaults.{LacksNumbers, LacksOrder, LacksShape, Names, NamesNone, are_in_order, have_numbers, have_shape, row_of, words_after};
ghost use Rattle.spy_grammar.specs.Launches.{launch_line_at, launch_log};
ghost use Rattle.spy_grammar.specs.Nested.{nested_line_at, nested_log};
ghost use Rattle.spy_grammar.specs.Reading.{is_passed_over, line_at};
ghost use Rattle.spy_grammar.specs.Spelling.{spelling, Good};

/// No two records are spelled alike.
#[tactic(auto, using(crate::proofs::lemmas::RowLaws::spelled_apart))]
pub fn one_spelling()
    ensures { (r s : Record) → Good r → Good s → spelling r ≡ spelling s → r ≡ s }
{}

/// Reading what was written gives the record.
#[tactic(auto, using(crate::proofs::lemmas::RowLaws::line_again))]
pub fn spelling_is_read()
    ensures { (r : Record) → Good r → line_at (spelling r) ≡ Ok (Some r) }
{}

/// A line that reading passes over is empty or begins with `#`, and a record that is read of a line is spelled so.
#[tactic(auto, using(crate::proofs::lemmas::RowLaws::line_blank, crate::proofs::lemmas::RowLaws::line_spelled, crate::proofs::lemmas::RowLaws::line_good))]
pub fn reading_is_of_spellings()
    ensures blank { (line : List ℕ) → line_at line ≡ Ok None → is_passed_over line ≡ true }
    ensures spelled { (line : List ℕ) (r : Record) → line_at line ≡ Ok (Some r) → line ≡ spelling r }
    ensures good { (line : List ℕ) (r : Record) → line_at line ≡ Ok (Some r) → Good r }
{}

/// A spelling has a byte, and no line feed.
#[tactic(auto, using(crate::proofs::lemmas::RowLaws::spelling_some, crate::proofs::lemmas::RowLaws::no_line_feed))]
pub fn spelling_is_one_line()
    ensures some { (r : Record) → Good r → spelling r ≢ [] }
    ensures no_line_feed { (r : Record) → Good r → All (λ b. b ≢ 10) (spelling r) }
{}

/// The fault of a line that is no blank line and no comment, as a person would tell it. `word`: its first word is the name of no kind. `form`: it names a kind, and the words after it are too few or too many, or one lacks the shape of its class. `number`: they have their shape, and some number has a zero before further digits, or is too small or too large. `order`: their numbers are right too, and some list or run does not ascend.
pub fn faults_in_words()
    ensures word { (line : List ℕ) → is_passed_over line ≡ false → (line_at line ≡ Err faults.Word)
        ↔ ((k : RecordKind) → Names line k → ⊥) }
    ensures form { (line : List ℕ) → is_passed_over line ≡ false → (line_at line ≡ Err faults.Form)
        ↔ ((k : RecordKind) × Names line k × (have_shape (row_of k) (words_after line) ≡ false)) }
    ensures number { (line : List ℕ) → is_passed_over line ≡ false → (line_at line ≡ Err faults.Number)
        ↔ ((k : RecordKind) × Names line k × (have_shape (row_of k) (words_after line) ≡ true)
        × (have_numbers (row_of k) (words_after line) ≡ false)) }
    ensures order { (line : List ℕ) → is_passed_over line ≡ false → (line_at line ≡ Err faults.Order)
        ↔ ((k : RecordKind) × Names line k × (have_shape (row_of k) (words_after line) ≡ true)
        × (have_numbers (row_of k) (words_after line) ≡ true)
        × (are_in_order (row_of k) (words_after line) ≡ false)) }
{}

/// The fault of a line of a launch log that is no blank line and no comment, told as that of a line of a log is, by the words of 22 kinds.
pub fn launch_faults_in_words()
    ensures word { (line : List ℕ) → is_passed_over line ≡ false → (launch_line_at line ≡ Err faults.Word)
        ↔ NamesNone launch_log line }
    ensures form { (line : List ℕ) → is_passed_over line ≡ false → (launch_line_at line ≡ Err faults.Form)
        ↔ LacksShape launch_log line }
    ensures number { (line : List ℕ) → is_passed_over line ≡ false → (launch_line_at line ≡ Err faults.Number)
        ↔ LacksNumbers launch_log line }
    ensures order { (line : List ℕ) → is_passed_over line ≡ false → (launch_line_at line ≡ Err faults.Order)
        ↔ LacksOrder launch_log line }
{}

/// The fault of a line of a nested log that is no blank line and no comment, told as that of a line of a log is, by the words of 23 kinds.
pub fn nested_faults_in_words()
    ensures word { (line : List ℕ) → is_passed_over line ≡ false → (nested_line_at line ≡ Err faults.Word)
        ↔ NamesNone nested_log line }
    ensures form { (line : List ℕ) → is_passed_over line ≡ false → (nested_line_at line ≡ Err faults.Form)
        ↔ LacksShape nested_log line }
    ensures number { (line : List ℕ) → is_passed_over line ≡ false → (nested_line_at line ≡ Err faults.Number)
        ↔ LacksNumbers nested_log line }
    ensures order { (line : List ℕ) → is_passed_over line ≡ false → (nested_line_at line ≡ Err faults.Order)
        ↔ LacksOrder nested_log line }
{}
