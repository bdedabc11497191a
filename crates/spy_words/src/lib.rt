//! The words of a log's lines, by their classes: reading, writing and testing each.
//!
//! `specs/Classes.antt` has what a word of each class means and how it is spelled, and `specs/Reading.antt`
//! what a word says or its fault; begin there. The laws that tie the two are proved once for each class.
//! `spy_grammar` makes lines of such words.
#![tactic(auto)]

mod access;
mod cut;
mod fault;
mod lists;
mod number_words;
mod parts;
mod short_lists;
mod words;

pub use access::{InstKind, PrivWord};
pub use cut::Pieces;
pub use fault::{LineFault, keep, meet, outcome_of};
pub use lists::{Extent, ListOf, Quad, Rects, Set};
pub use number_words::{fields_of, list_gathered, waits_of};
pub use parts::{
    GatherParts, ListPart, Read, are_fit, ascend, at_least_one, each_of, extent_of, push_after,
    push_list,
};
pub use short_lists::{Gathered, Nums};
pub use words::{
    access_of, coherence_text, either, layout_of, number_of, push_access, push_layout, push_u64,
    split_text,
};
