//! Tests of single lines: which records they spell, and the faults of those that spell none.
#![tactic(auto)]

#[cfg(test)]
mod further_lines;
#[cfg(test)]
mod lines;
