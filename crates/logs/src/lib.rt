//! The log of a recorded run: its tables, its forest, and what the parts above look up in them.
//!
//! A `Log` keeps that its tables are those of records on ascending lines that break no rule, so that
//! whatever holds of such records holds of each log; each look-up is its definition. `log_decl` makes logs
//! of records that have no fault. Begin with `log.rt`.
#![tactic(auto)]

mod asked_log;
mod found;
mod log;
mod log_uses;
mod mapping;
mod serial_order;

pub use asked_log::AskedLog;
pub use log::Log;
pub use log_uses::LogUses;
pub use mapping::Unmapped;
