//! What the tests of the whole program share: the logs of the examples, and calls of `run` over memory.
//!
//! Begin with `example_logs.rt`, whose logs lie in the folder `examples` too; `blocks.rt` makes two more by rule, and `answers.rt` asks a command about a log, with some lines changed. `run` and its statuses are handed on from `spy_cli`.
#![tactic(auto)]

mod answers;
mod blocks;
mod example_logs;

pub use answers::{answer, answer_edited, answer_why, edited, framed, with_line, words_of};
pub use blocks::{block_halos, digest};
pub use example_logs::{
    EARLY_HALO, FILL_NEVER_PUT, FOLDED_EARLY, FOLDED_TWICE, FRESH_COPY, FULL_BARRIERS,
    GATHERED_REDUCTIONS, HALO_EXCHANGE, HALO_STENCIL, HALO_STENCIL_UNORDERED, LAUNCHED_HALO,
    LAUNCHED_OVERLAP, MERGED_WAITS, MISSING_COPY, MISSING_WAIT, NESTED_HALVES, NESTED_OVERREACH,
    NEVER_EMPTIED, STALE_COPY, STALE_HALO, TURNED_WRITES, TWO_OPERATORS, TWO_TASKS,
    TWO_TASKS_UNORDERED, UNSTATED_TURN, WAITS_IN_A_CYCLE, WRITE_THEN_READ, WRITER_APART,
};
pub use spy_cli::{Status, run};
