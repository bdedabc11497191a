//! What a nested log says, tried on worked logs.

ghost use Rattle.std.specs.Prelude.{◌≡◌, ◌≤◌, ℕ, true, false, List, None, Some, [], ◌∷◌};
ghost use Rattle.spy_words.specs.declared.access.PrivWord.TheVariants.{Rw, Wd};
ghost use Rattle.spy_grammar.specs.declared.code.Code.TheVariants as codes;
ghost use Rattle.spy_grammar.specs.declared.record.Record.TheVariants.{Task, Fill, Run};
ghost use Rattle.spy_grammar.specs.declared.nested.NRecord.TheVariants.{Member};
ghost use Rattle.semantics.specs.Faults.{at_line};
ghost use Rattle.semantics.specs.Nesting.{free_pairs, nested_fault, nested_tables, nesting_of, shown_unlicensed};
ghost use Rattle.nest_laws.specs.WorkedNests.{around_log, both_ask, both_read, counted_wrong, first_in, group_reads, licensed_later, many_groups, many_privileges, member_of_one, nests_computed, one_field, read_below, read_below_one, reads_beyond, second_beyond, second_group, split_later, two_groups, two_tasks, unlicensed_at_first, writer_in_reader};

/// What the definitions say of two tasks in groups: whether each child asks for no more than its group licenses, and how many pairs of groups are free of each other.
#[tactic(auto, unfolding(crate::specs::WorkedNests::nests_computed))]
pub fn worked_nests()
    ensures below { nested_fault 17 read_below ≡ None }
    ensures licensed { shown_unlicensed (nested_tables read_below) (nesting_of read_below) ≡ None }
    ensures none_free { free_pairs (nested_tables read_below) (nesting_of read_below) ≡ 0 }
    ensures task_shown { nested_fault 17 writer_in_reader ≡ None }
    ensures task { shown_unlicensed (nested_tables writer_in_reader) (nesting_of writer_in_reader)
        ≡ Some (unlicensed_at_first true 1 2) }
    ensures reads { nested_fault 17 both_read ≡ None }
    ensures all_read { shown_unlicensed (nested_tables both_read) (nesting_of both_read) ≡ None }
    ensures one_free { free_pairs (nested_tables both_read) (nesting_of both_read) ≡ 1 }
    ensures group_shown { nested_fault 17 (read_below_one Wd) ≡ None }
    ensures group { shown_unlicensed (nested_tables (read_below_one Wd)) (nesting_of (read_below_one Wd))
        ≡ Some (unlicensed_at_first false 2 1) }
    // Of a group and a task that both ask for too much the group is shown.
    ensures group_first { shown_unlicensed (nested_tables both_ask) (nesting_of both_ask)
        ≡ Some (unlicensed_at_first false 2 1) }
    ensures later { nested_fault 17 licensed_later ≡ None }
    ensures later_too { shown_unlicensed (nested_tables licensed_later) (nesting_of licensed_later) ≡ None }
    ensures beyond { nested_fault 13 reads_beyond ≡ None }
    ensures second { shown_unlicensed (nested_tables reads_beyond) (nesting_of reads_beyond) ≡ Some second_beyond }
{}

/// Logs that just keep the rules on groups, and logs that break them.
#[tactic(auto, unfolding(crate::specs::WorkedNests::nests_computed))]
pub fn worked_group_rules()
    ensures other_id { nested_fault 8 (second_group 2 0) ≡ None }
    ensures repeated { nested_fault 8 (second_group 1 0) ≡ Some (at_line codes.RepeatedId 7) }
    ensures member_again { nested_fault 18 (two_tasks Rw (two_groups Rw 1 (Member 2 1 ∷ first_in 1)))
        ≡ Some (at_line codes.RepeatedId 15) }
    ensures earlier { nested_fault 8 (second_group 2 1) ≡ None }
    ensures own_parent { nested_fault 8 (second_group 2 2) ≡ Some (at_line codes.UnknownId 7) }
    ensures reads { nested_fault 8 (group_reads 1 1 1 one_field []) ≡ None }
    ensures no_group { nested_fault 8 (group_reads 0 1 1 one_field []) ≡ Some (at_line codes.UnknownId 7) }
    ensures no_tree { nested_fault 8 (group_reads 1 2 1 one_field []) ≡ Some (at_line codes.UnknownId 7) }
    ensures no_space { nested_fault 8 (group_reads 1 1 3 one_field []) ≡ Some (at_line codes.UnknownId 7) }
    ensures of_task { nested_fault 9 (member_of_one (Task 1) 1 (Run 1 1 [] ∷ [])) ≡ None }
    ensures of_none { nested_fault 9 (member_of_one (Task 1) 2 (Run 1 1 [] ∷ []))
        ≡ Some (at_line codes.UnknownId 7) }
    ensures of_fill { nested_fault 8 (member_of_one (Fill 1 1 1 one_field 0) 1 [])
        ≡ Some (at_line codes.UnknownId 7) }
    ensures part { nested_fault 10 (group_reads 1 1 2 one_field split_later) ≡ None }
    ensures no_part { nested_fault 8 (group_reads 1 1 2 one_field []) ≡ Some (at_line codes.NotInTree 7) }
    ensures field { nested_fault 8 (group_reads 1 1 1 (2 ∷ []) []) ≡ Some (at_line codes.Fields 7) }
    ensures around { nested_fault 4 around_log ≡ None }
    ensures plain_first { nested_fault 3 counted_wrong ≡ Some (at_line codes.Count 3) }
{}

/// The limits of a nested log: 1,024 groups, and 131,072 records that are not plain, of which the first is here a group.
pub fn worked_group_limits()
    ensures most_groups { (lines k : ℕ) → k ≤ 1024 → nested_fault lines (many_groups k) ≡ None }
    ensures one_group_more { (lines : ℕ) → nested_fault lines (many_groups 1025)
        ≡ Some (at_line codes.TooManyGroups 1026) }
    ensures most_records { (lines k : ℕ) → k ≤ 131071 → nested_fault lines (many_privileges k) ≡ None }
    ensures one_record_more { (lines : ℕ) → nested_fault lines (many_privileges 131072)
        ≡ Some (at_line codes.TooManyRecords 131077) }
{}
