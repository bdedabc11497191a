//! Laws of the order in which a log lists its items, where neither its frame nor a record has a fault.

ghost use Rattle.std.specs.Prelude.{◌≡◌, ◌≢◌, ◌↔◌, ℕ, ◌<◌, true, List, length, find, None, IsSome, Contains, AllPairs};
ghost use Rattle.vocabulary.specs.Prelude.{Lined, Item, Serial, place_of, tables_of, is_in, id_of};
ghost use Rattle.semantics.specs.SerialOrder.{listed, serial};
ghost use Rattle.semantics.specs.Rules.{is_declared, item_id};
ghost use Rattle.semantics.specs.Faults.{declaration_fault};

/// No two items have one id, so that the first item with the id of an item is this item.
pub fn item_ids_are_apart()
    ensures apart { (lines : ℕ) (log : List Lined) → declaration_fault lines log ≡ None
        → AllPairs (λ (i j : Item). i.id ≢ j.id) (tables_of log).items }
    ensures place { (lines : ℕ) (log : List Lined) → declaration_fault lines log ≡ None
        → (item : ℕ) → item < length (tables_of log).items
        → place_of (tables_of log).items (id_of (tables_of log) item) ≡ item }
{}

/// Where a line lists items, each item is listed. No id is listed twice, and each that is listed is the id of an item.
pub fn items_are_listed()
    ensures listed { (lines : ℕ) (log : List Lined) → declaration_fault lines log ≡ None
        → 0 < length (tables_of log).serials → (item : ℕ) → item < length (tables_of log).items
        → Contains (listed (tables_of log)) (id_of (tables_of log) item) }
    ensures line { (lines : ℕ) (log : List Lined) → declaration_fault lines log ≡ None
        → 0 < length (tables_of log).serials → (item : ℕ) → item < length (tables_of log).items
        → IsSome (find (λ (s : Serial). is_in s.ids (id_of (tables_of log) item)) (tables_of log).serials) }
    ensures once { (lines : ℕ) (log : List Lined) → declaration_fault lines log ≡ None
        → AllPairs (λ m n. m ≢ n) (listed (tables_of log)) }
    ensures known { (lines : ℕ) (log : List Lined) → declaration_fault lines log ≡ None
        → (id : ℕ) → Contains (listed (tables_of log)) id → is_declared (tables_of log) (item_id id) ≡ true }
    ensures place { (lines : ℕ) (log : List Lined) → declaration_fault lines log ≡ None
        → (id : ℕ) → Contains (listed (tables_of log)) id
        → place_of (tables_of log).items id < length (tables_of log).items }
{}

/// The serial order has each item once, and nothing else.
pub fn serial_order_lists()
    ensures once { (lines : ℕ) (log : List Lined) → declaration_fault lines log ≡ None
        → AllPairs (λ a b. a ≢ b) (serial (tables_of log)) }
    ensures items { (lines : ℕ) (log : List Lined) → declaration_fault lines log ≡ None
        → (item : ℕ) → Contains (serial (tables_of log)) item ↔ (item < length (tables_of log).items) }
{}
