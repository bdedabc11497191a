//! The rules that each record of a log has to keep, given what the earlier records declare. Each rule is one small test, named as its definition is.
//!
//! Each function answers exactly its definition in `Rules` of `semantics`, over the tables of the earlier
//! records (`LogTables` of `log_tables`). What a record names of these, and how much it asks for, is looked up
//! once for all rules (`Named`). What a rule asks of the whole log is gathered once before (`WholeLog`), and
//! what a rule counts is kept along the way (`Tally`). Which rules look at a record, in which order, and which
//! fault is shown, are for `log_decl`. Begin with any rule, `names.rt` say.
#![tactic(auto)]

mod cell_rows;
mod claim_points;
mod claims;
mod counts;
mod events;
mod fields;
mod instances;
mod load;
mod named;
mod names;
mod own;
mod pair_answers;
mod requirements;
mod serial;
mod space_pairs;
mod spaces;
mod tally;
mod whole_log;

pub use claim_points::rects_declared;
pub use counts::{has_many_reads, is_late};
pub use events::{is_run_again, repeats_event};
pub use instances::{is_mapped_again, is_not_covered, is_of_wrong_kind, is_of_wrong_tree};
pub use load::has_much_load;
pub use named::Named;
pub use names::{names_unknown, repeats_id};
pub use own::interferes_with_own;
pub use requirements::{exceeds_tree, has_wrong_fields, is_not_in_tree};
pub use serial::is_bad_serial;
pub use spaces::{
    is_in_tree, is_late_sub, is_no_root, is_of_other_version, is_sub_again, is_too_deep,
};
pub use tally::{Tally, has_many_accesses, has_many_atoms, has_many_cells, has_many_points};
pub use whole_log::{WholeLog, has_no_run, waits_for_none};
