//! The records of a log, and how a line spells each: reading a line, and writing a record.
//!
//! `read_line` reads a line as the one record that it spells, or gives its one fault; `write_record` writes
//! the one spelling of a record, and `good` says which records have one. `specs/Rows.antt` has the table of
//! the format, a line for each kind of record, and everything here goes by it; begin there. Launch logs and
//! nested logs have a table each (`Launches`, `Nested`), with the same promises.
#![tactic(auto)]

mod cells;
mod code;
mod kinds;
mod launches;
mod law;
mod line;
mod nested;
mod reading;
mod record;
mod row;
mod writing;

pub use code::Code;
pub use launches::{LLined, LRecord, read_launch_line};
pub use law::{
    faults_in_words, launch_faults_in_words, nested_faults_in_words, one_spelling,
    reading_is_of_spellings, spelling_is_one_line, spelling_is_read,
};
pub use memory::Memory;
pub use nested::{NLined, NRecord, read_nested_line};
pub use reading::read_line;
pub use record::{Lined, Record};
pub use spy_words::{InstKind, LineFault, Nums, PrivWord, Quad, Rects, Set};
pub use writing::{good, with_line, write_record};
