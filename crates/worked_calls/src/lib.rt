//! Tests of calls of the library crates that stand on logs, over the code that they try.
//!
//! Each module tries one crate, on small inputs with ample memory: that the calls succeed there is what no
//! contract can say. `framed_logs.rt` makes the logs for them.
#![tactic(auto)]

#[cfg(test)]
mod atoms_tests;
#[cfg(test)]
mod cut_logs_tests;
#[cfg(test)]
mod findings_tests;
#[cfg(test)]
mod framed_logs;
#[cfg(test)]
mod graph_tests;
#[cfg(test)]
mod inst_steps_tests;
#[cfg(test)]
mod interference_tests;
#[cfg(test)]
mod point_kinds_tests;
#[cfg(test)]
mod provenance_tests;
#[cfg(test)]
mod region_tree_tests;
#[cfg(test)]
mod replay_tests;
#[cfg(test)]
mod serial_exec_tests;
#[cfg(test)]
mod values;
