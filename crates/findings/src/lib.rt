//! Reports: each has one text.
//!
//! `text` writes the one text of a finding, `good_finding` says exactly which findings have one, and
//! `code_text` gives the code of a fault. A report is its own line and those that it lists, both by one
//! table: `specs/Texts.antt` has what each looks like, and nothing else has to be read for that. Begin
//! there, or with `finding.rt`. `report_reading` reads the texts back.
#![tactic(auto)]

mod cells;
mod codes;
mod finding;
mod lists;
mod value_text;
mod writing;

pub use cells::Listed;
pub use codes::code_text;
pub use finding::{Dep, Finding, WhyAsk, WhyKind, WhyLink};
pub use lists::{DepList, EventList, PairList, WhyList};
pub use memory::Memory;
pub use spy_grammar::Code;
pub use value_terms::Value;
pub use writing::{cannot_read_text, count_before, good_finding, lines_fit, text, usage_text};
