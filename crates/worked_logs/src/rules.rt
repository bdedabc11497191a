//! The rules, tried on worked logs: one that just keeps a rule, and one that breaks it.

ghost use Rattle.std.specs.Prelude.{◌≡◌, true, false, None, Some, [], ◌∷◌, ◌++◌};
ghost use Rattle.spy_words.specs.declared.access.PrivWord.TheVariants.{Ro, Rw};
ghost use Rattle.spy_words.specs.declared.access.InstKind.TheVariants as layouts;
ghost use Rattle.spy_grammar.specs.declared.code.Code.TheVariants as codes;
ghost use Rattle.spy_grammar.specs.declared.record.Record.TheVariants.{End, Header, Merge, Run, Serial};
ghost use Rattle.vocabulary.specs.Prelude.{lined};
ghost use Rattle.semantics.specs.declared.command.Command.TheVariants.{Check, Ordered};
ghost use Rattle.semantics.specs.Faults.{at_line, log_fault};
ghost use Rattle.worked_logs.specs.WorkedLogs.{one, turned, turned_by_log};
ghost use Rattle.worked_logs.specs.WorkedRules.{both, copied_to, copied_to_tree, counted_as, deep, disjoint_up_to, ended_before, fill_with_id, filled, filled_field, in_order, mapped_also, mapped_fields, mapped_number, of_version, operator_with_id, plane_of, put_up_to, reaching, reads_and, reduced_in, reset_kind, run_then, split, split_before, task_then, tree_of, two_subs};

/// The rules on the frame, and on names.
#[tactic(auto, unfolding(semantics::specs::Computed::logs_computed))]
pub fn worked_frames()
    // The frame.
    ensures version_1 { log_fault Check 2 (lined (of_version 1)) ≡ None }
    ensures version_2 { log_fault Check 2 (lined (of_version 2)) ≡ None }
    ensures version_3 { log_fault Check 2 (lined (of_version 3)) ≡ Some (at_line codes.Header 1) }
    ensures rectangles { log_fault Check 3 (lined (plane_of 2)) ≡ None }
    ensures no_rectangles { log_fault Check 3 (lined (plane_of 1)) ≡ Some (at_line codes.Version 2) }
    ensures second_header { log_fault Check 3 (lined (Header 1 ∷ of_version 1))
        ≡ Some (at_line codes.Header 2) }
    ensures end_last { log_fault Check 2 (lined (ended_before [])) ≡ None }
    ensures record_behind_end { log_fault Check 3 (lined (ended_before (End 0 ∷ [])))
        ≡ Some (at_line codes.Ended 3) }
    ensures right_count { log_fault Check 3 (lined (counted_as 1)) ≡ None }
    ensures wrong_count { log_fault Check 3 (lined (counted_as 2)) ≡ Some (at_line codes.Count 3) }

    // Names.
    ensures two_ids { log_fault Check 4 (lined (operator_with_id 2)) ≡ None }
    ensures repeated_id { log_fault Check 4 (lined (operator_with_id 1)) ≡ Some (at_line codes.RepeatedId 3) }
    ensures two_item_ids { log_fault Check 8 (lined (fill_with_id 2)) ≡ None }
    ensures repeated_item_id { log_fault Check 8 (lined (fill_with_id 1)) ≡ Some (at_line codes.RepeatedId 6) }
    ensures known_id { log_fault Check 4 (lined (split 1)) ≡ None }
    ensures unknown_id { log_fault Check 4 (lined (split 2)) ≡ Some (at_line codes.UnknownId 3) }
    ensures known_number { log_fault Check 10 (lined (mapped_number 1)) ≡ None }
    ensures unknown_number { log_fault Check 10 (lined (mapped_number 2)) ≡ Some (at_line codes.UnknownId 8) }
{}

/// The rules on regions.
#[tactic(auto, unfolding(semantics::specs::Computed::logs_computed))]
pub fn worked_regions()
    ensures two_subs { log_fault Check 8 (lined (two_subs 1 3)) ≡ None }
    ensures repeated_colour { log_fault Check 8 (lined (two_subs 0 3)) ≡ Some (at_line codes.RepeatedId 7) }
    ensures space_in_two { log_fault Check 8 (lined (two_subs 1 2)) ≡ Some (at_line codes.SpaceInTwo 7) }
    ensures early_sub { log_fault Check 8 (lined (split_before 1)) ≡ None }
    ensures late_sub { log_fault Check 8 (lined (split_before 2)) ≡ Some (at_line codes.LateSub 7) }
    ensures deep { log_fault Check 196 (lined (deep 64 ++ End 193 ∷ [])) ≡ None }
    ensures too_deep { log_fault Check 199 (lined (deep 65 ++ End 196 ∷ []))
        ≡ Some (at_line codes.TooDeep 197) }
    ensures within { log_fault Check 7 (lined (reaching 1)) ≡ None }
    ensures not_within { log_fault Check 7 (lined (reaching 2)) ≡ Some (at_line codes.NotWithin 6) }
    ensures disjoint { log_fault Check 8 (lined (disjoint_up_to 4)) ≡ None }
    ensures not_disjoint { log_fault Check 8 (lined (disjoint_up_to 5)) ≡ Some (at_line codes.NotDisjoint 7) }
    ensures root { log_fault Check 9 (lined (tree_of 1)) ≡ None }
    ensures not_root { log_fault Check 9 (lined (tree_of 2)) ≡ Some (at_line codes.NotRoot 8) }
{}

/// The rules on what tasks and fills ask for, and on instances.
#[tactic(auto, unfolding(semantics::specs::Computed::logs_computed))]
pub fn worked_uses()
    // What tasks and fills ask for.
    ensures in_tree { log_fault Check 10 (lined (filled 2)) ≡ None }
    ensures not_in_tree { log_fault Check 10 (lined (filled 3)) ≡ Some (at_line codes.NotInTree 9) }
    ensures right_fields { log_fault Check 6 (lined (filled_field 1)) ≡ None }
    ensures wrong_fields { log_fault Check 6 (lined (filled_field 2)) ≡ Some (at_line codes.Fields 5) }
    ensures wrong_field_of_map { log_fault Check 11 (lined (mapped_also 3)) ≡ Some (at_line codes.Fields 9) }
    ensures reads_twice { log_fault Ordered 9 (lined (reads_and Ro)) ≡ None }
    ensures self_interference { log_fault Ordered 9 (lined (reads_and Rw))
        ≡ Some (at_line codes.SelfInterference 7) }

    // Instances.
    ensures right_tree { log_fault Check 9 (lined (copied_to_tree 1)) ≡ None }
    ensures wrong_tree { log_fault Check 9 (lined (copied_to_tree 2)) ≡ Some (at_line codes.WrongTree 8) }
    ensures copied { log_fault Check 8 (lined (copied_to 2)) ≡ None }
    ensures copied_to_itself { log_fault Check 8 (lined (copied_to 1)) ≡ Some (at_line codes.WrongKind 7) }
    ensures reset { log_fault Check 8 (lined (reset_kind (layouts.Red 1))) ≡ None }
    ensures reset_plain { log_fault Check 8 (lined (reset_kind layouts.Plain))
        ≡ Some (at_line codes.WrongKind 7) }
    ensures right_operator { log_fault Check 12 (lined (reduced_in 1)) ≡ None }
    ensures wrong_operator { log_fault Check 12 (lined (reduced_in 2)) ≡ Some (at_line codes.WrongKind 10) }
    ensures covered { log_fault Check 8 (lined (put_up_to 1)) ≡ None }
    ensures lacks_point { log_fault Check 8 (lined (put_up_to 0)) ≡ Some (at_line codes.NotCovered 7) }
    ensures inst_outside { log_fault Check 8 (lined (put_up_to 2)) ≡ Some (at_line codes.NotCovered 6) }
    ensures mapped_once { log_fault Check 11 (lined (mapped_also 2)) ≡ None }
    ensures mapped_twice { log_fault Check 11 (lined (mapped_also 1)) ≡ Some (at_line codes.MappedTwice 9) }
    ensures all_mapped { log_fault Check 10 (lined (mapped_fields both)) ≡ None }
    ensures field_unmapped { log_fault Check 10 (lined (mapped_fields one)) ≡ Some (at_line codes.Unmapped 6) }
    ensures unmapped_in_ordered { log_fault Ordered 10 (lined (mapped_fields one)) ≡ None }
{}

/// The rules on runs, events and the serial order.
#[tactic(auto, unfolding(semantics::specs::Computed::logs_computed))]
pub fn worked_runs()
    ensures run { log_fault Check 4 (lined (task_then (Run 1 1 []))) ≡ None }
    ensures no_run { log_fault Check 4 (lined (task_then (Merge 1 []))) ≡ Some (at_line codes.NoRun 2) }
    ensures one_run { log_fault Check 5 (lined (run_then (Merge 2 one))) ≡ None }
    ensures two_runs { log_fault Check 5 (lined (run_then (Run 1 2 one))) ≡ Some (at_line codes.TwoRuns 4) }
    ensures repeated_event { log_fault Check 5 (lined (run_then (Merge 1 one)))
        ≡ Some (at_line codes.RepeatedEvent 4) }
    ensures undefined_event { log_fault Check 5 (lined (run_then (Merge 2 (3 ∷ []))))
        ≡ Some (at_line codes.UndefinedEvent 4) }
    ensures all_listed { log_fault Check 7 (lined (in_order (2 ∷ 1 ∷ []))) ≡ None }
    ensures not_listed { log_fault Check 7 (lined (in_order one)) ≡ Some (at_line codes.Serial 4) }
    ensures listed_twice { log_fault Check 7 (lined (in_order (2 ∷ 1 ∷ 2 ∷ [])))
        ≡ Some (at_line codes.Serial 4) }
    ensures in_program_order { log_fault Check 15 (lined (turned false (Serial (1 ∷ 2 ∷ []) ∷ []) 13)) ≡ None }
    ensures against_program_order { log_fault Check 15 (lined (turned false (Serial (2 ∷ 1 ∷ []) ∷ []) 13))
        ≡ Some (at_line codes.SerialOrder 9) }
    ensures turns_against_program_order { log_fault Check 15 (lined turned_by_log) ≡ None }
{}
