//! Worked examples of the whole program, as tests: each a log, the command, and the report and status that they give.
//!
//! Begin with `examples.rt`, whose logs lie in the folder `examples` too (`worked_answers`), and `rows.rt`.
#![tactic(auto)]

#[cfg(test)]
mod alike_fields;
#[cfg(test)]
mod chains;
#[cfg(test)]
mod checked;
#[cfg(test)]
mod examples;
#[cfg(test)]
mod halos;
#[cfg(test)]
mod ids;
#[cfg(test)]
mod many_requirements;
#[cfg(test)]
mod rows;
#[cfg(test)]
mod whys;
