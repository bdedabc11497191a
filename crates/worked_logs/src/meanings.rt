//! The definitions, tried on worked logs.

ghost use Rattle.std.specs.Prelude.{◌≡◌, ℕ, true, false, None, Some, [], ◌∷◌};
ghost use Rattle.spy_words.specs.declared.access.PrivWord.TheVariants.{Wd};
ghost use Rattle.spy_grammar.specs.declared.code.Code.TheVariants as codes;
ghost use Rattle.spy_grammar.specs.declared.record.Record.TheVariants as records;
ghost use Rattle.privilege.specs.declared.kinds.Kind.TheVariants as kinds;
ghost use Rattle.value_terms.specs.declared.terms.Base.TheVariants as bases;
ghost use Rattle.vocabulary.specs.Prelude.{plain, lined, tables_of, item_kind, least_place, pairs, graph_of, Race, shown_difference, want_of};
ghost use Rattle.semantics.specs.SerialOrder.{serial};
ghost use Rattle.semantics.specs.ReplayOrder.{replay_order, shown_cycle};
ghost use Rattle.semantics.specs.declared.command.Command.TheVariants.{Check, Ordered};
ghost use Rattle.semantics.specs.Faults.{at_line, log_fault};
ghost use Rattle.semantics.specs.Counts.{operation_count, read_count, task_count};
ghost use Rattle.worked_logs.specs.WorkedLogs.{accepted, both_added, copy_unordered, first_cell, first_place, folded_once, folded_twice, fresh_copy, in_a_circle, merges_in_a_circle, not_reset, one, one_instance, overlapping, saw, stale_copy, turned, turned_by_log, two_operators, unmapped, unordered};

/// What the definitions say of worked logs.
#[tactic(auto, using(crate::proofs::WorkedRaces::race_of_runs, crate::proofs::WorkedRaces::race_of_operators, crate::proofs::WorkedRaces::race_with_copy), unfolding(semantics::specs::Computed::logs_computed))]
pub fn worked_meanings()
    // Faults.
    ensures none { log_fault Check 14 (lined accepted) ≡ None }
    ensures no_record { log_fault Check 0 [] ≡ Some (at_line codes.Header 1) }
    ensures no_end { log_fault Check 13 (lined (one_instance Wd (records.Run 1 1 [] ∷ records.Run 2 2 one ∷ [])))
        ≡ Some (at_line codes.Ended 14) }
    ensures count { log_fault Check 14 (lined (one_instance Wd (records.Run 1 1 [] ∷ records.Run 2 2 one ∷ records.End 11 ∷ [])))
        ≡ Some (at_line codes.Count 14) }
    ensures not_mapped { log_fault Check 11 (lined unmapped) ≡ Some (at_line codes.Unmapped 6) }
    ensures mapping_is_of_check { log_fault Ordered 11 (lined unmapped) ≡ None }
    ensures not_disjoint { log_fault Check 8 (lined (overlapping true)) ≡ Some (at_line codes.NotDisjoint 7) }
    ensures aliased { log_fault Check 8 (lined (overlapping false)) ≡ None }

    // Interference and serial order.
    ensures pairs { pairs (tables_of (lined accepted)) ≡ (0, 1) ∷ [] }
    ensures kind { item_kind (tables_of (lined accepted)) 0 1 ≡ kinds.Before }
    ensures place { least_place (tables_of (lined accepted)) 0 1 ≡ Some first_place }
    ensures serial { serial (tables_of (lined accepted)) ≡ 0 ∷ 1 ∷ [] }
    ensures turns { item_kind (tables_of (lined turned_by_log)) 0 1 ≡ kinds.Turn }
    ensures turned_place { least_place (tables_of (lined turned_by_log)) 0 1 ≡ Some first_place }
    ensures turned_serial { serial (tables_of (lined turned_by_log)) ≡ 1 ∷ 0 ∷ [] }
    ensures reductions { pairs (tables_of (lined folded_once)) ≡ (0, 2) ∷ (1, 2) ∷ [] }

    // The replay order and cycles.
    ensures replay { replay_order (graph_of (tables_of (lined stale_copy)).nodes) ≡ 0 ∷ 1 ∷ 2 ∷ 3 ∷ [] }
    ensures replay_turned { replay_order (graph_of (tables_of (lined turned_by_log)).nodes) ≡ 1 ∷ 0 ∷ [] }
    ensures no_cycle { shown_cycle (graph_of (tables_of (lined stale_copy)).nodes) ≡ None }
    ensures cycle { shown_cycle (graph_of (tables_of (lined in_a_circle)).nodes) ≡ Some (0 ∷ 1 ∷ []) }
    ensures cycle_of_merges { shown_cycle (graph_of (tables_of (lined merges_in_a_circle)).nodes)
        ≡ Some (2 ∷ 3 ∷ 4 ∷ []) }

    // Counts, and what tasks read in the replay and should have read.
    ensures tasks { task_count (tables_of (lined accepted)) ≡ 2 }
    ensures operations { operation_count (tables_of (lined accepted)) ≡ 2 }
    ensures reads { read_count (tables_of (lined accepted)) ≡ 4 }
    ensures right { shown_difference (tables_of (lined accepted)) ≡ None }
    ensures stale { shown_difference (tables_of (lined stale_copy)) ≡ Some (saw 3 (plain (bases.Out 1))) }
    ensures stale_want { want_of (tables_of (lined stale_copy)) (saw 3 (plain (bases.Out 1)))
        ≡ plain (bases.Out 2) }
    ensures fresh { shown_difference (tables_of (lined fresh_copy)) ≡ None }
    ensures folded { shown_difference (tables_of (lined folded_once)) ≡ None }
    ensures folded_again { shown_difference (tables_of (lined folded_twice)) ≡ Some (saw 3 (both_added 2)) }
    ensures folded_want { want_of (tables_of (lined folded_twice)) (saw 3 (both_added 2)) ≡ both_added 1 }
    ensures not_emptied { shown_difference (tables_of (lined not_reset)) ≡ Some (saw 3 (plain bases.Raw)) }
    ensures turned { shown_difference (tables_of (lined turned_by_log)) ≡ None }
    ensures not_turned { shown_difference (tables_of (lined (turned true [] 12)))
        ≡ Some (saw 2 (plain bases.Init)) }
    ensures not_turned_want { want_of (tables_of (lined (turned true [] 12))) (saw 2 (plain bases.Init))
        ≡ plain (bases.Out 1) }

    // Races.
    ensures runs_race { Race (tables_of (lined unordered)) 0 1 first_cell }
    ensures operators_race { Race (tables_of (lined two_operators)) 0 1 first_cell }
    ensures copy_races { Race (tables_of (lined copy_unordered)) 0 1 first_cell }
{}
