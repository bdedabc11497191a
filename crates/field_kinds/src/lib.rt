//! The first fields of a log: one of each kind of its fields, and the log with these fields alone.
//!
//! Fields that no list of a log tells apart are of one kind, and what is found at one of them is found at each
//! (`field_laws`). `first_fields` parts the fields by one list after the other, and gives the first of each
//! kind, where these are at most half of the fields. `cut_records` gives the log with these fields alone, whose
//! records stand on the same lines and have a spelling where those of the log have one. Begin with `first.rt`;
//! `cutting.rt` makes the smaller log.
#![tactic(auto)]

mod copying;
mod cutting;
mod first;
mod kinds;
mod lists;
mod places;

pub use cutting::cut_records;
pub use first::{FEWEST_FIELDS, first_fields};
