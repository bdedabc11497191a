//! Values that carry what was read, tried on worked logs.

ghost use Rattle.std.specs.Prelude.{◌≡◌, ◌≢◌, Some};
ghost use Rattle.vocabulary.specs.Prelude.{lined, tables_of};
ghost use Rattle.long_values.specs.LongSequential.{wanted_long};
ghost use Rattle.long_values.specs.LongValues.{short};
ghost use Rattle.worked_logs.specs.WorkedLogs.{first_place, folded_once, fresh_copy, stale_copy};
ghost use Rattle.worked_logs.specs.WorkedLongValues.{both_added_long, contributed, first_writes, read_first, replayed_read, second_writes, third_reads, unread};

/// What the definitions say of worked logs: what the third task should read at the first place, and what it reads in the replay. Last, contributions that are the same when short, and are not when what was read is carried.
#[tactic(auto, unfolding(crate::specs::WorkedLongValues::long_values_computed))]
pub fn worked_long_values()
    ensures wanted { wanted_long (tables_of (lined fresh_copy)) 2 first_place ≡ second_writes }
    ensures fresh { replayed_read fresh_copy 4 ≡ Some (third_reads second_writes) }
    ensures stale { replayed_read stale_copy 4 ≡ Some (third_reads first_writes) }
    ensures folded { replayed_read folded_once 0 ≡ Some (third_reads both_added_long) }
    ensures same { short (contributed unread) ≡ short (contributed read_first) }
    ensures apart { contributed unread ≢ contributed read_first }
{}
