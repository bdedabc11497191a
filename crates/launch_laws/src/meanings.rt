//! What a launch log stands for, tried on worked logs.

ghost use Rattle.std.specs.Prelude.{◌≡◌, None, Some, [], ◌∷◌};
ghost use Rattle.spy_grammar.specs.declared.code.Code.TheVariants as codes;
ghost use Rattle.vocabulary.specs.Prelude.{lined};
ghost use Rattle.semantics.specs.Faults.{at_line, declaration_fault};
ghost use Rattle.semantics.specs.Launches.{launch_fault, written_log};
ghost use Rattle.launch_laws.specs.LaunchOrders.{AgreeButFor, launch_tables, launches_of};
ghost use Rattle.launch_laws.specs.WorkedLaunches.{apart_halves, common_point, halves_as_tasks, launch_of_halves, launches_at, no_such_colour, one_reads_all};

/// What the definitions say of launches. Where the tasks of one each write a half of a region, it stands for two tasks with a requirement each.
#[tactic(auto, unfolding(crate::specs::WorkedLaunches::launches_computed))]
pub fn worked_launches()
    ensures none { launch_fault 17 apart_halves ≡ None }
    ensures written { written_log apart_halves ≡ halves_as_tasks }
    ensures declares { declaration_fault 19 (lined halves_as_tasks) ≡ None }
    ensures launched { launches_of apart_halves ≡ launch_of_halves ∷ [] }
    ensures turned { AgreeButFor (launch_tables apart_halves) launch_of_halves (0 ∷ 1 ∷ []) (1 ∷ 0 ∷ []) }
    ensures common { launch_fault 17 common_point ≡ Some (at_line codes.LaunchInterference 11) }
    ensures unknown { launch_fault 17 no_such_colour ≡ Some (at_line codes.UnknownId 11) }
    ensures reads { launch_fault 18 one_reads_all ≡ Some (at_line codes.LaunchInterference 12) }
    ensures repeated { launch_fault 4 (launches_at (5 ∷ 5 ∷ []) 2) ≡ Some (at_line codes.RepeatedId 3) }
    ensures last_ids { launch_fault 3 (launches_at (4294967294 ∷ []) 1) ≡ None }
    ensures range { launch_fault 3 (launches_at (4294967295 ∷ []) 1) ≡ Some (at_line codes.LaunchRange 2) }
{}
