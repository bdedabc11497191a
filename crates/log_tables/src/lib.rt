//! What a log declares, as it is looked up.
//!
//! `LogTables` is the tables of the records so far. `LogTables::add` adds one record to them, exactly as `Tables` of
//! `semantics` says, and changes nothing where memory runs out; each look-up is its definition. `Decls` is
//! what of it declares regions. One way to tie an index to a list serves all of them (`Rows`). Begin with
//! `tables.rt` and `lookups.rt`.
#![tactic(auto)]

mod adding;
mod declared;
mod entries;
mod fields;
mod keys;
mod lookups;
mod maps;
mod places;
mod regions;
mod reqs;
mod rows;
mod tables;
mod two_rows;

pub use adding::{priv_of, rects_of, strips_of};
pub use entries::{ById, ByNumber, ByRun, BySpace, ByStep, ByTask, ReqKey, Space, Step};
pub use fields::is_in;
pub use keys::{Key, KeyBy};
pub use maps::{FieldKey, Maps};
pub use regions::Decls;
pub use reqs::Reqs;
pub use rows::Rows;
pub use tables::LogTables;
pub use two_rows::TwoRows;
