//! What each command finds in the records of a log.
//!
//! `find` gives it (`IsFound`), for every command that is asked of a log. `check` goes through stages, each
//! a type that keeps what is known: `Declared` keeps the rules, `Sorted` has no cycle, `Clean` has no race,
//! and `Judged` has no differing read in any interleaving. Where few fields are told apart, a log that is cut
//! to these is asked first (`narrow.rt`). `write_deps` writes what `deps` finds as it is found, so that in
//! memory stand the log and a buffer, whatever is listed. Begin with `commands.rt`, and then the stages in that
//! order.
#![tactic(auto)]

mod asking;
mod checking;
mod clean;
mod commands;
mod declared;
mod judged;
mod narrow;
mod reads;
mod sorted;
mod stop;
mod written_deps;

pub use clean::Clean;
pub use commands::{check, deps, find, ordered, spare, why};
pub use declared::Declared;
pub use judged::Judged;
pub use log_findings::DepsEnd;
pub use memory::Memory;
pub use sorted::Sorted;
pub use stop::Stop;
pub use written_deps::write_deps;
