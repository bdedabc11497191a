//! Laws of logs that are cut to first fields.

ghost use Rattle.std.specs.Prelude.{◌≡◌, ℕ, List, None};
ghost use Rattle.std.specs.List.{AllByRecursion};
ghost use Rattle.vocabulary.specs.Prelude.{Good, Lined, IsRaceFree, graph_of, records_of, shown_difference, tables_of};
ghost use Rattle.field_laws.specs.Fields.{AreFirsts, field_lists};
ghost use Rattle.field_laws.specs.CutFields.{cut_log};

/// The nodes of a log that is cut to some fields wait as those of the whole log do. Where it has no race, and its fields are first ones, the whole log has none; and where none of its reads differs, none does.
pub fn first_fields_suffice()
    ensures graph { (log : List Lined) (fields : List ℕ) → graph_of (tables_of (cut_log fields log)).nodes
        ≡ graph_of (tables_of log).nodes }
    ensures races { (log : List Lined) (firsts : List ℕ) → AllByRecursion Good (records_of log)
        → AreFirsts (field_lists log) firsts → IsRaceFree (tables_of (cut_log firsts log))
        → IsRaceFree (tables_of log) }
    ensures reads { (log : List Lined) (firsts : List ℕ) → AllByRecursion Good (records_of log)
        → AreFirsts (field_lists log) firsts → shown_difference (tables_of (cut_log firsts log)) ≡ None
        → shown_difference (tables_of log) ≡ None }
{}
