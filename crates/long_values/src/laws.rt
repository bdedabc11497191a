//! Laws of long values.

ghost use Rattle.std.specs.Prelude.{◌≡◌, ◌↔◌, ℕ, true, None, List, AllPairs, Contains};
ghost use Rattle.std.specs.List.{AllByRecursion};
ghost use Rattle.vocabulary.specs.Prelude.{Lined, Good, records_of, comes_first, Contribution, Value, Place, Cell, Tables, place_of, tables_of, IsInterleaving, IsRight, Command, Step, after_items, wanted, start, executed, ReadsIn};
ghost use Rattle.semantics.specs.declared.command.Command.TheVariants.{Check};
ghost use Rattle.semantics.specs.Faults.{log_fault};
ghost use Rattle.findings.specs.declared.finding.Finding.{Finding};
ghost use Rattle.outcomes.specs.Outcome.{CheckFinds, IsFound, IsOutcome};
ghost use Rattle.long_values.specs.LongValues.{Readings, Long, add_long, short};
ghost use Rattle.long_values.specs.LongSequential.{LongRead, Places, after_items_long, places_read, wanted_long};
ghost use Rattle.long_values.specs.LongExecution.{LongState, start_long, read_place, executed_long, reads_at, IsShort, IsRightLong};
ghost use Rattle.long_values.specs.LongOutcome.{CheckFindsLong, IsFoundLong, IsOutcomeLong};

/// Two contributions by one operator may be added in either order, unless they are of one requirement and carry different lists.
pub fn contributions_commute()
    ensures { (op : ℕ) (c d : Contribution) (reads others : Readings) → (c ≡ d → reads ≡ others)
        → (v : Long) → add_long op c reads (add_long op d others v)
        ≡ add_long op d others (add_long op c reads v) }
{}

/// What sequential execution makes of long values is, short, what it makes of values.
pub fn sequential_execution_is_short()
    ensures wanted { (t : Tables) (item : ℕ) (p : Place) → short (wanted_long t item p) ≡ wanted t item p }
    ensures items { (t : Tables) (items : List ℕ) (held : Places) (p : Place)
        → short (after_items_long t items held p) ≡ after_items t items p (short (held p)) }
{}

/// Whatever steps are taken, in whatever order: what cells hold in long execution is, short, what they hold in execution, and the list of reads holds, short, what is read.
pub fn execution_is_short()
    ensures state { (t : Tables) (xs : List Step) (cell : Cell)
        → short ((executed_long t xs (start_long t)).cells cell) ≡ executed xs (start t) cell }
    ensures onward { (t : Tables) (xs : List Step) (s : LongState) (cell : Cell)
        → short ((executed_long t xs s).cells cell) ≡ executed xs (λ c. short (s.cells c)) cell }
    ensures listed { (t : Tables) (xs : List Step) (node task req : ℕ) (cell : Cell) (v : Value)
        → ReadsIn xs (start t) (reads_at node task req cell) v
        → (r : LongRead) × Contains (executed_long t xs (start_long t)).reads r × IsShort t r task req cell v }
    ensures read { (t : Tables) (xs : List Step) (r : LongRead)
        → Contains (executed_long t xs (start_long t)).reads r
        → (node : ℕ) × (cell : Cell) × (r.place ≡ read_place t r.task r.req cell)
        × ReadsIn xs (start t) (reads_at node r.task r.req cell) (short r.value) }
{}

/// In an interleaving of a log without a fault tasks read only where their requirements say, so the list that a task carries leaves none of its reads out.
pub fn tasks_read_where_they_should()
    ensures { (lines : ℕ) (log : List Lined) → log_fault Check lines log ≡ None → (xs : List Step)
        → IsInterleaving (tables_of log) xs
        → (r : LongRead) → Contains (executed_long (tables_of log) xs (start_long (tables_of log))).reads r
        → Contains (places_read (tables_of log) (place_of (tables_of log).items r.task)) (r.req, r.place) }
{}

/// The places that a task reads are listed by requirement, then by point, and then by field.
pub fn places_read_ascend()
    ensures { (command : Command) (lines : ℕ) (log : List Lined) → AllByRecursion Good (records_of log)
        → log_fault command lines log ≡ None → (item : ℕ)
        → AllPairs (λ d e. comes_first (d.0, d.1.point, d.1.field) (e.0, e.1.point, e.1.field)
        ≡ true) (places_read (tables_of log) item) }
{}

/// In every interleaving of a log without a fault each read sees what it should, exactly where in every interleaving each sees what it should with all that was read for it.
pub fn right_reads_are_right_in_long()
    ensures { (lines : ℕ) (log : List Lined) → log_fault Check lines log ≡ None → IsRight (tables_of log)
        ↔ IsRightLong (tables_of log) }
{}

/// What `check` finds in the tables of a log without a fault, in a log, and on an input, is the same by long values as by values.
pub fn check_finds_the_same_in_long()
    ensures tables { (lines : ℕ) (log : List Lined) → log_fault Check lines log ≡ None → (f : Finding)
        → CheckFinds (tables_of log) f ↔ CheckFindsLong (tables_of log) f }
    ensures found { (lines : ℕ) (log : List Lined) (f : Finding) → IsFound Check lines log f
        ↔ IsFoundLong lines log f }
    ensures outcome { (bytes : List ℕ) (f : Finding) → IsOutcome Check bytes f ↔ IsOutcomeLong bytes f }
{}
