//! Laws of groups and of what is below them. A function has nothing to do: its contract is the law.

ghost use Rattle.std.specs.Prelude.{◌≡◌, ◌↔◌, ℕ, true, false, List, [], ◌∷◌, None, Contains};
ghost use Rattle.std.specs.Option.{option_map_or};
ghost use Rattle.privilege.specs.declared.kinds.Kind.TheVariants.{Free};
ghost use Rattle.spy_grammar.specs.declared.nested.NLined.{NLined};
ghost use Rattle.vocabulary.specs.Prelude.{Lined, Place, Req, Tables, covers, item_kind, kind_at, reqs_of, tables_of};
ghost use Rattle.semantics.specs.Faults.{declaration_fault};
ghost use Rattle.semantics.specs.declared.groups.Child.{Child};
ghost use Rattle.semantics.specs.Nesting.{Nesting, ancestors, are_apart, are_free, children, group_above, is_ancestor, licenses, nested_fault, nested_tables, nesting_of, no_nesting, reqs_of_child, shown_unlicensed};
ghost use Rattle.nest_laws.specs.Below.{IsTaskBelow, as_nested};

/// A log is a nested log in which nothing is nested: the fault that is shown of it is that of its frame or of its single records, and it declares the same.
pub fn logs_are_nested_logs()
    ensures fault { (lines : ℕ) (log : List Lined) → nested_fault lines (as_nested log) ≡ declaration_fault lines log }
    ensures tables { (log : List Lined) → nested_tables (as_nested log) ≡ tables_of log }
    ensures none { (log : List Lined) → nesting_of (as_nested log) ≡ no_nesting }
{}

/// The ancestors of a group are the group above it, if there is one, and the ancestors of that, where no fault is shown of the nested log: none is left out, and no group is one of its own.
pub fn ancestors_are_all_above()
    ensures all { (lines : ℕ) (log : List NLined) → nested_fault lines log ≡ None → (g : ℕ)
        → ancestors (nesting_of log) g ≡ option_map_or (λ parent. parent ∷ ancestors (nesting_of log) parent)
        (group_above (nesting_of log) g) [] }
    ensures others { (lines : ℕ) (log : List NLined) → nested_fault lines log ≡ None → (g : ℕ)
        → is_ancestor (nesting_of log) g g ≡ false }
{}

/// No child is shown exactly where each asks for no more than its group licenses. Then each group that a task is below licenses what the task asks for at every place of its requirements: the group that it is a member of, and all above that.
pub fn children_are_licensed()
    ensures exact { (t : Tables) (n : Nesting) → (shown_unlicensed t n ≡ None)
        ↔ ((c : Child) → Contains (children n) c → (r : Req) → Contains (reqs_of_child t n c) r
        → (p : Place) → covers t p r ≡ true → licenses t n c.group p r.access ≡ true) }
    ensures above { (t : Tables) (n : Nesting) → shown_unlicensed t n ≡ None → (g item : ℕ) → IsTaskBelow t n g item
        → (r : Req) → Contains (reqs_of t item) r → (p : Place) → covers t p r ≡ true
        → licenses t n g p r.access ≡ true }
{}

/// Two groups that are free of each other may run side by side, where no fault is shown of the nested log and no child asks for more than its group licenses: no task below the one interferes with a task below the other, at no place.
pub fn free_groups_are_apart()
    ensures tasks { (lines : ℕ) (log : List NLined) → nested_fault lines log ≡ None
        → shown_unlicensed (nested_tables log) (nesting_of log) ≡ None
        → (g h : ℕ) → are_free (nested_tables log) (nesting_of log) g h ≡ true
        → (a b : ℕ) → IsTaskBelow (nested_tables log) (nesting_of log) g a
        → IsTaskBelow (nested_tables log) (nesting_of log) h b → item_kind (nested_tables log) a b ≡ Free }
    ensures places { (lines : ℕ) (log : List NLined) → nested_fault lines log ≡ None
        → shown_unlicensed (nested_tables log) (nesting_of log) ≡ None
        → (g h : ℕ) → are_free (nested_tables log) (nesting_of log) g h ≡ true
        → (a b : ℕ) → IsTaskBelow (nested_tables log) (nesting_of log) g a
        → IsTaskBelow (nested_tables log) (nesting_of log) h b
        → (p : Place) → kind_at (nested_tables log) a b p ≡ Free }
    // It does not matter which of the two groups is named first.
    ensures turned { (t : Tables) (n : Nesting) (g h : ℕ) → are_free t n g h ≡ are_free t n h g }
    ensures pairs { (t : Tables) (n : Nesting) (g h : ℕ) → are_apart t n g h ≡ are_apart t n h g }
{}
