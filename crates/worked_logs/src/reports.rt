//! What the commands report, tried on worked logs.

ghost use Rattle.std.specs.Prelude.{◌≡◌, [], ◌∷◌};
ghost use Rattle.findings.specs.declared.finding.Finding.TheVariants as findings;
ghost use Rattle.vocabulary.specs.Prelude.{lined, tables_of};
ghost use Rattle.semantics.specs.Shown.{task_pairs};
ghost use Rattle.semantics.specs.declared.command.Command.TheVariants.{Deps, Ordered, Spare};
ghost use Rattle.outcomes.specs.Outcome.{IsFound};
ghost use Rattle.semantics.specs.Counts.{operation_count, read_count, task_count};
ghost use Rattle.worked_logs.specs.WorkedLogs.{merges_in_a_circle, three_tasks, three_tasks_dependences, unordered, with_spare_wait};

/// Dependences, unordered pairs, waits that others imply, and counts.
#[tactic(auto, using(crate::proofs::WorkedPairs::pair_of_runs, crate::proofs::WorkedPairs::pair_of_three, crate::proofs::WorkedWaits::spare_of_copy), unfolding(semantics::specs::Computed::logs_computed))]
pub fn worked_findings()
    // Four items, of whose pairs five have a fixed order, and one takes turns.
    ensures dependences { IsFound Deps 19 (lined three_tasks) (findings.Deps three_tasks_dependences 4 5 1) }
    ensures unordered { IsFound Ordered 14 (lined unordered) (findings.Unordered 1 2 1 0 1) }
    ensures second_pair_unordered { IsFound Ordered 19 (lined three_tasks) (findings.Unordered 1 3 1 2 1) }

    // Of four waits one is implied by another of its list.
    ensures spare { IsFound Spare 20 (lined with_spare_wait) (findings.Spare ((4, 1) ∷ []) 4) }

    // Counts. A fill is no task, and a merge no operation.
    ensures pairs { task_pairs (tables_of (lined three_tasks)) ≡ (0, 1) ∷ (0, 2) ∷ (1, 2) ∷ [] }
    ensures tasks { task_count (tables_of (lined three_tasks)) ≡ 3 }
    ensures operations { operation_count (tables_of (lined merges_in_a_circle)) ≡ 2 }
    ensures reads { read_count (tables_of (lined three_tasks)) ≡ 10 }
{}
