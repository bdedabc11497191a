//! The limits on numbers, tried on worked logs: one that just keeps a limit, and one that breaks it.

ghost use Rattle.std.specs.Prelude.{◌≡◌, None, Some, sum_by};
ghost use Rattle.spy_grammar.specs.declared.code.Code.TheVariants as codes;
ghost use Rattle.vocabulary.specs.Prelude.{lined, tables_of};
ghost use Rattle.semantics.specs.declared.command.Command.TheVariants.{Check, Ordered};
ghost use Rattle.semantics.specs.Faults.{at_line, log_fault};
ghost use Rattle.semantics.specs.Rules.{load_of};
ghost use Rattle.worked_logs.specs.WorkedLogs.{folded_once};
ghost use Rattle.worked_logs.specs.WorkedLimits.{of_accesses, of_cells, of_load, of_points, of_records, plane_accesses, plane_cells};

/// The limits on numbers.
pub fn worked_limits()
    ensures records { log_fault Check 131074 (lined (of_records 131072)) ≡ None }
    ensures too_many_records { log_fault Check 131075 (lined (of_records 131073))
        ≡ Some (at_line codes.TooManyRecords 131074) }
    ensures points { log_fault Check 3 (lined (of_points 1048576)) ≡ None }
    ensures too_many_points { log_fault Check 3 (lined (of_points 1048577))
        ≡ Some (at_line codes.TooManyPoints 2) }
    ensures cells { log_fault Check 6 (lined (of_cells 65536 16)) ≡ None }
    ensures too_many_cells { log_fault Check 6 (lined (of_cells 61681 17))
        ≡ Some (at_line codes.TooManyCells 5) }
    ensures accesses { log_fault Check 6 (lined (of_accesses 1048576 4)) ≡ None }
    ensures too_many_accesses { log_fault Check 6 (lined (of_accesses 838861 5))
        ≡ Some (at_line codes.TooManyAccesses 5) }

    // A rectangle counts once, however many points it has: here nine, and then one.
    ensures plane_cells { log_fault Check 6 (lined (plane_cells 2 1048576)) ≡ None }
    ensures too_many_plane_cells { log_fault Check 6 (lined (plane_cells 0 1048577))
        ≡ Some (at_line codes.TooManyCells 6) }
    ensures plane_accesses { log_fault Check 6 (lined (plane_accesses 2 4194304)) ≡ None }
    ensures too_many_plane_accesses { log_fault Check 6 (lined (plane_accesses 0 4194305))
        ≡ Some (at_line codes.TooManyAccesses 6) }

    // The load is a product: of points, fields, requirements and instances.
    ensures load { log_fault Ordered 104 (lined (of_load 4096 8 64 32)) ≡ None }
    ensures too_much_load { log_fault Ordered 218 (lined (of_load 1613 5 157 53))
        ≡ Some (at_line codes.TooMuchLoad 218) }

    // Two instances have a cell each, at a place where two tasks reduce.
    ensures small_load { sum_by (load_of (tables_of (lined folded_once))) (tables_of (lined folded_once)).insts
        ≡ 4 }
{}
