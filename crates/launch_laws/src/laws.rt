//! Laws of what launches write, and of the order of items. A function has nothing to do: its contract is the law.

ghost use Rattle.std.specs.Prelude.{◌≡◌, ℕ, true, All, List, None, Contains};
ghost use Rattle.vocabulary.specs.Prelude.{may_read, Good, GoodLaunch, Reads, Value, LLined, Place, Req, lined, text_of, Tables, covers, uses_of, after_items, wanted};
ghost use Rattle.semantics.specs.SerialOrder.{serial};
ghost use Rattle.semantics.specs.TextFaults.{text_fault};
ghost use Rattle.semantics.specs.Faults.{declaration_fault};
ghost use Rattle.semantics.specs.Launches.{TaskLaunch, launch_fault, written_log};
ghost use Rattle.launch_laws.specs.Stretches.{AreTurned, joined, wanted_in};
ghost use Rattle.launch_laws.specs.LaunchOrders.{AgreeButFor, launch_tables, launches_of};

/// What a launch log writes, of which no fault is shown, is a log: each record has a spelling, and the text of the log has no fault of its bytes or lines and holds these records.
pub fn written_logs_are_logs()
    ensures good { (lines : ℕ) (log : List LLined) → All (λ l. GoodLaunch l.rec) log
        → launch_fault lines log ≡ None → All Good (written_log log) }
    ensures fault { (lines : ℕ) (log : List LLined) → All (λ l. GoodLaunch l.rec) log
        → launch_fault lines log ≡ None → text_fault (text_of (written_log log)) ≡ None }
    ensures log { (lines : ℕ) (log : List LLined) → All (λ l. GoodLaunch l.rec) log
        → launch_fault lines log ≡ None → Reads (text_of (written_log log)) (lined (written_log log)) }
{}

/// The tasks of a launch may be run in any order, where no fault is shown of the launch log and what it writes has tables: each place has the same value after all items, and each read of an item wants the same value. And what a read is said to want is what it wants where the items are run in serial order.
pub fn launches_in_any_order()
    ensures after { (lines count : ℕ) (log : List LLined) → launch_fault lines log ≡ None
        → declaration_fault count (lined (written_log log)) ≡ None
        → (l : TaskLaunch) → Contains (launches_of log) l
        → (order other : List ℕ) → AgreeButFor (launch_tables log) l order other → (p : Place) (v : Value)
        → after_items (launch_tables log) order p v ≡ after_items (launch_tables log) other p v }
    ensures wanted { (lines count : ℕ) (log : List LLined) → launch_fault lines log ≡ None
        → declaration_fault count (lined (written_log log)) ≡ None
        → (l : TaskLaunch) → Contains (launches_of log) l
        → (order other : List ℕ) → AgreeButFor (launch_tables log) l order other
        → (item : ℕ) (r : Req) → Contains (uses_of (launch_tables log) item) r → may_read r.access ≡ true
        → (p : Place) → covers (launch_tables log) p r ≡ true
        → wanted_in (launch_tables log) order item p ≡ wanted_in (launch_tables log) other item p }
    ensures serial { (t : Tables) (item : ℕ) (p : Place) → wanted t item p ≡ wanted_in t (serial t) item p }
{}

/// Items that stand next to each other and do not interfere may be run in any order: each place has the same value after all items, and each read of an item wants the same value.
pub fn neighbours_in_any_order()
    ensures after { (t : Tables) (ones others : List (List ℕ)) → AreTurned t ones others → (p : Place) (v : Value)
        → after_items t (joined ones) p v ≡ after_items t (joined others) p v }
    ensures wanted { (t : Tables) (ones others : List (List ℕ)) → AreTurned t ones others → (item : ℕ) (r : Req)
        → Contains (uses_of t item) r → may_read r.access ≡ true → (p : Place) → covers t p r ≡ true
        → wanted_in t (joined ones) item p ≡ wanted_in t (joined others) item p }
{}
