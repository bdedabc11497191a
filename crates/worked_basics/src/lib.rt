//! Tests of calls of the library crates that stand below logs, and of what reads and makes them.
//!
//! Each module tries one crate, on small inputs with ample memory: that the calls succeed there is what no
//! contract can say.
#![tactic(auto)]

#[cfg(test)]
mod field_kinds_tests;
#[cfg(test)]
mod id_maps_tests;
#[cfg(test)]
mod launch_claims_tests;
#[cfg(test)]
mod launches_tests;
#[cfg(test)]
mod log_gen_tests;
#[cfg(test)]
mod log_reading_tests;
#[cfg(test)]
mod number_lists_tests;
#[cfg(test)]
mod privilege_tests;
#[cfg(test)]
mod spy_args_tests;
#[cfg(test)]
mod spy_io_tests;
#[cfg(test)]
mod spy_lines_tests;
