//! Whether tasks that interfere are run in serial order, from what is used at each place.

ghost use Rattle.std.specs.Prelude.{◌≡◌, ◌↔◌, ◌&&◌, nat_lt, ◌<◌, ℕ, Bool, true, false, List, length, None};
ghost use Rattle.vocabulary.specs.Prelude.{Place, Lined, Tables, tables_of, is_in, is_free, item_kind};
ghost use Rattle.semantics.specs.Faults.{declaration_fault};
ghost use Rattle.semantics.specs.Shown.{AreKept, IsKept, IsShownPair, task_pairs};
ghost use Rattle.point_laws.specs.Alike.{AreFirsts};
ghost use Rattle.cell_races.specs.Races.{race_in};
ghost use Rattle.order_laws.specs.Counting.{count_below, sum_below};
ghost use Rattle.order_laws.specs.Turns.{AreInTurn, AreInTurnBut, AreKeptBut, AgreeWithThemselves, IsFirstUnkept, ListsItems, Meeting, do_interfere};
ghost use Rattle.order_laws.specs.TaskAccesses.{Tells, task_node_accesses};

/// Every two tasks that interfere are run in serial order exactly where those are that do not agree at a first point.
pub fn places_tell_of_tasks()
    ensures kept { (t : Tables) (firsts : List ℕ) → AreFirsts t firsts → ListsItems t
        → AreInTurn t firsts → AreKept t }
    ensures turn { (t : Tables) (points : List ℕ) → AreKept t → AreInTurn t points }
    ensures but { (t : Tables) (firsts : List ℕ) (out : ℕ → Bool) → AreFirsts t firsts → ListsItems t
        → AreInTurnBut t firsts out → AreKeptBut t out }
{}

/// The tasks that use a place in serial order tell whether those are run in serial order that do not agree there: no earlier one conflicts with a later one and is not before it. (This is what the groups of a place find.)
pub fn groups_tell_of_tasks()
    ensures turn { (t : Tables) (before : ℕ → ℕ → Bool) → Tells t before → ListsItems t → (points : List ℕ)
        → ((p : Place) → is_in points p.point ≡ true → race_in before (task_node_accesses t p) ≡ None)
        → AreInTurn t points }
    ensures race_free { (t : Tables) (before : ℕ → ℕ → Bool) → Tells t before → ListsItems t
        → AgreeWithThemselves t → (points : List ℕ) → AreInTurn t points
        → (p : Place) → is_in points p.point ≡ true → race_in before (task_node_accesses t p) ≡ None }
{}

/// The requirements of a task agree where they share a place.
pub fn tasks_agree_with_themselves()
    ensures { (lines : ℕ) (log : List Lined) → declaration_fault lines log ≡ None
        → AgreeWithThemselves (tables_of log) }
{}

/// How many pairs of tasks interfere is a sum over items of counts of later ones. And which do is told by first points.
pub fn pairs_are_counted()
    ensures sum { (t : Tables) → length (task_pairs t)
        ≡ sum_below (λ a. count_below (λ b. nat_lt a b && do_interfere t a b) (length t.items))
        (length t.items) }
    ensures some { (t : Tables) (a b : ℕ) (p : Place) → Meeting t a b p → is_free (item_kind t a b) ≡ false }
    ensures first { (t : Tables) (firsts : List ℕ) → AreFirsts t firsts → (a b : ℕ)
        → is_free (item_kind t a b) ≡ false → (p : Place) × (is_in firsts p.point ≡ true) × Meeting t a b p }
{}

/// Where tasks that interfere are not all run in serial order, the first pair that is not is the one that is shown.
pub fn first_pair_is_shown()
    ensures kept { (t : Tables) → ((a b : ℕ) → a < b → do_interfere t a b ≡ true → IsKept t (a, b))
        → AreKept t }
    ensures shown { (t : Tables) (a b : ℕ) → IsFirstUnkept t a b → IsShownPair t (a, b) }
{}
