//! Lemmas on lists and options, which the proofs of other crates cite.
//!
//! They hold of any lists, and say nothing of logs. There is no code; `proofs/lemmas` has them by what they
//! are about.
#![tactic(auto)]
